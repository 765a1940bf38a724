// A case: how a run begins, and how it must end.
use crate::members::{bytes_of, number_at, numbers_at, text_at};
use anyhow::{Result, bail};
use hudi_base::{Bytes, Name, Sequence};
use serde_json::Value;
use std::alloc::Global;

/// What the store reads back in place of what it holds.
#[derive(Drop)]
pub enum Answer {
    Piece(Bytes),
    Absent,
    Failed,
}

/// A file that must be there.
#[derive(Drop)]
pub struct Found {
    pub name: Name,
    pub bytes: Bytes,
}

/// How a run must end. What is missing isn't looked at.
#[derive(Drop)]
pub struct Expected {
    pub status: u64,
    pub text: Bytes,
    /// `found`, the files that there are, and there are no others.
    pub found: Option<Vec<Found>>,
    /// How often the source was called.
    pub reads: Option<u64>,
    /// How many bytes the source has left.
    pub left: Option<u64>,
    /// How many changing calls the store got.
    pub calls: Option<u64>,
}

/// A run that is to be made.
#[derive(Drop)]
pub struct Case {
    pub name: String,
    /// `words`; `run 1` where they are missing.
    pub words: Vec<String>,
    /// `script`, the bytes that come in.
    pub script: Bytes,
    /// `clock`, what the clock answers in turn, the last again and again; the beginning of 2024 where it is missing.
    pub clock: Vec<i64>,
    /// `pieces`, the most bytes that a call of the source or of the sink passes.
    pub pieces: usize,
    /// `failing_reads`, `failing_writes` and `failing_calls`: the calls that fail, of the source, the sink and, if
    /// they change something, the store, from 0.
    pub failing_reads: Sequence<u64>,
    pub failing_writes: Sequence<u64>,
    pub failing_calls: Sequence<u64>,
    /// `prefix`, how many bytes a failing append leaves.
    pub prefix: u64,
    /// `files`, the names of empty files that are there.
    pub files: Vec<String>,
    /// `existing_calls`: the changing calls, from 0, of a store that reads back something else which answer that their file
    /// exists.
    pub existing_calls: Sequence<u64>,
    /// `listing_fails`: whether a store that reads back something else can't be listed either.
    pub listing_fails: bool,
    /// `reads_back`: `absent`, `failed`, or the bytes that any read gives, from a store that keeps nothing.
    pub answer: Option<Answer>,
    pub expected: Expected,
}

impl Case {
    /// The case that a line writes.
    pub fn from_line(alloc: Global, line: &str) -> Result<Case> {
        let value = Value::from_str(alloc, line)?;
        let Some(script) = value.get("script") else {
            bail!("a case without a script");
        };
        Ok(Case {
            name: String::from_str(alloc, text_at(&value, "name", ""))?,
            words: words_of(alloc, &value)?,
            script: bytes_of(alloc, script)?,
            clock: clock_of(alloc, &value)?,
            pieces: number_at(&value, "pieces").map_or(usize::MAX, |most| most as usize),
            failing_reads: numbers_at(alloc, &value, "failing_reads")?,
            failing_writes: numbers_at(alloc, &value, "failing_writes")?,
            failing_calls: numbers_at(alloc, &value, "failing_calls")?,
            prefix: number_at(&value, "prefix").unwrap_or(0),
            files: texts_at(alloc, &value, "files")?,
            existing_calls: numbers_at(alloc, &value, "existing_calls")?,
            listing_fails: value.get("listing_fails").is_some(),
            answer: answer_of(alloc, &value)?,
            expected: expected_of(alloc, &value)?,
        })
    }
}

// A member that is an array of texts, none where it is missing.
fn texts_at(alloc: Global, value: &Value, name: &str) -> Result<Vec<String>> {
    let mut texts = Vec::new(alloc);
    let Some(items) = value.get(name).and_then(Value::as_array) else {
        return Ok(texts);
    };
    for item in items {
        let text = String::from_str(alloc, item.as_str().unwrap_or(""))?;
        texts.push(text)?;
    }
    Ok(texts)
}

fn words_of(alloc: Global, value: &Value) -> Result<Vec<String>> {
    if value.get("words").is_some() {
        return texts_at(alloc, value, "words");
    }
    let mut words = Vec::new(alloc);
    words.push(String::from_str(alloc, "run")?)?;
    words.push(String::from_str(alloc, "1")?)?;
    Ok(words)
}

fn clock_of(alloc: Global, value: &Value) -> Result<Vec<i64>> {
    let mut answers = Vec::new(alloc);
    match value.get("clock").and_then(Value::as_array) {
        Some(items) => {
            for item in items {
                answers.push(item.as_i64().unwrap_or(0))?;
            }
        }
        None => answers.push(1_704_067_200_000)?,
    }
    Ok(answers)
}

fn answer_of(alloc: Global, value: &Value) -> Result<Option<Answer>> {
    let Some(answer) = value.get("reads_back") else {
        return Ok(None);
    };
    Ok(Some(match answer.as_str() {
        Some("absent") => Answer::Absent,
        Some("failed") => Answer::Failed,
        _ => Answer::Piece(bytes_of(alloc, answer)?),
    }))
}

fn expected_of(alloc: Global, value: &Value) -> Result<Expected> {
    let (Some(status), Some(text)) = (number_at(value, "status"), value.get("text")) else {
        bail!("a case without an end");
    };
    Ok(Expected {
        status,
        text: bytes_of(alloc, text)?,
        found: found_of(alloc, value)?,
        reads: number_at(value, "reads"),
        left: number_at(value, "left"),
        calls: number_at(value, "calls"),
    })
}

fn found_of(alloc: Global, value: &Value) -> Result<Option<Vec<Found>>> {
    let Some(items) = value.get("found").and_then(Value::as_array) else {
        return Ok(None);
    };
    let mut found = Vec::new(alloc);
    for item in items {
        found.push(file_of(alloc, item)?)?;
    }
    Ok(Some(found))
}

fn file_of(alloc: Global, item: &Value) -> Result<Found> {
    let Some(bytes) = item.get("bytes") else {
        bail!("a file without bytes");
    };
    Ok(Found {
        name: Name::from_text(alloc, text_at(item, "name", ""))?,
        bytes: bytes_of(alloc, bytes)?,
    })
}
