// The members of a case.
use anyhow::{Result, bail};
use hudi_base::{Bytes, Sequence};
use serde_json::Value;
use std::alloc::Global;

/// A member that is a text, and what stands in its place where it is missing.
pub fn text_at<'a>(value: &'a Value, name: &str, missing: &'a str) -> &'a str {
    match value.get(name) {
        Some(member) => member.as_str().unwrap_or(missing),
        None => missing,
    }
}

/// A member that is a number of at least 0.
pub fn number_at(value: &Value, name: &str) -> Option<u64> {
    value.get(name).and_then(Value::as_u64)
}

/// A member that is an array of numbers, none where it is missing.
pub fn numbers_at(alloc: Global, value: &Value, name: &str) -> Result<Sequence<u64>> {
    let mut numbers = Sequence::new(alloc);
    let Some(items) = value.get(name).and_then(Value::as_array) else {
        return Ok(numbers);
    };
    for item in items {
        numbers.push(item.as_u64().unwrap_or(u64::MAX))?;
    }
    Ok(numbers)
}

/// Bytes: a text, an object with `hex`, or an array of parts, each one of these or an object with a `text` and how
/// many `times` it stands there.
pub fn bytes_of(alloc: Global, value: &Value) -> Result<Bytes> {
    let mut bytes = Vec::new(alloc);
    match value.as_array() {
        Some(parts) => {
            for part in parts {
                push_part(alloc, &mut bytes, part)?;
            }
        }
        None => push_part(alloc, &mut bytes, value)?,
    }
    Ok(Bytes::from_vec(bytes))
}

fn push_part(alloc: Global, bytes: &mut Vec<u8>, part: &Value) -> Result<()> {
    if let Some(text) = part.as_str() {
        bytes.extend_from_slice(text.as_bytes())?;
        return Ok(());
    }
    if let Some(digits) = part.get("hex").and_then(Value::as_str) {
        let decoded: Vec<u8> = hex::decode(alloc, digits)?;
        bytes.extend_from_slice(&decoded)?;
        return Ok(());
    }
    let Some(times) = number_at(part, "times") else {
        bail!("a part is no bytes");
    };
    for _ in 0..times {
        bytes.extend_from_slice(text_at(part, "text", "").as_bytes())?;
    }
    Ok(())
}
