// Numbers, varints, and bytes behind their length.
use byte_fields::*;
use byteorder::{BigEndian, LittleEndian};
use std::alloc::{AllocError, Global};
use std::test::*;

// What a reader answered: a number or the length of a content, and how many bytes it took; or an item's offset.
#[derive(Clone, Copy, PartialEq, Eq)]
enum Seen {
    Number(i128, usize),
    Content(usize, usize),
    Short(usize),
    Bad(usize),
}

fn seen_error(bytes: &[u8], error: FieldError) -> Seen {
    match error {
        FieldError::Short { .. } => Seen::Short(error.offset(bytes.len())),
        FieldError::Bad { .. } => Seen::Bad(error.offset(bytes.len())),
    }
}

fn seen_number(bytes: &[u8], read: Result<(i128, &[u8]), FieldError>) -> Seen {
    match read {
        Ok((number, rest)) => Seen::Number(number, bytes.len().saturating_sub(rest.len())),
        Err(error) => seen_error(bytes, error),
    }
}

fn seen_content(bytes: &[u8], read: Result<(&[u8], &[u8]), FieldError>) -> Seen {
    match read {
        Ok((content, rest)) => {
            Seen::Content(content.len(), bytes.len().saturating_sub(rest.len()))
        }
        Err(error) => seen_error(bytes, error),
    }
}

#[derive(Clone, Copy)]
enum Number {
    U8,
    U32Big,
    U32Little,
    U64Big,
    U64Little,
    I32Big,
    I32Little,
    I64Big,
    I64Little,
    Varint,
    VarintU32,
    ZigzagI16,
    ZigzagI32,
    ZigzagI64,
}

fn fixed_seen(kind: Number, bytes: &[u8]) -> Seen {
    let read = match kind {
        Number::U32Big => u32_at::<BigEndian>(bytes).map(|(x, rest)| (i128::from(x), rest)),
        Number::U32Little => u32_at::<LittleEndian>(bytes).map(|(x, rest)| (i128::from(x), rest)),
        Number::U64Big => u64_at::<BigEndian>(bytes).map(|(x, rest)| (i128::from(x), rest)),
        Number::U64Little => u64_at::<LittleEndian>(bytes).map(|(x, rest)| (i128::from(x), rest)),
        Number::I32Big => i32_at::<BigEndian>(bytes).map(|(x, rest)| (i128::from(x), rest)),
        Number::I32Little => i32_at::<LittleEndian>(bytes).map(|(x, rest)| (i128::from(x), rest)),
        Number::I64Big => i64_at::<BigEndian>(bytes).map(|(x, rest)| (i128::from(x), rest)),
        Number::I64Little => i64_at::<LittleEndian>(bytes).map(|(x, rest)| (i128::from(x), rest)),
        _ => u8_at(bytes).map(|(x, rest)| (i128::from(x), rest)),
    };
    seen_number(bytes, read)
}

fn number_seen(kind: Number, bytes: &[u8]) -> Seen {
    let read = match kind {
        Number::Varint => varint_at(bytes).map(|(x, rest)| (i128::from(x), rest)),
        Number::VarintU32 => varint_u32_at(bytes).map(|(x, rest)| (i128::from(x), rest)),
        Number::ZigzagI16 => zigzag_i16_at(bytes).map(|(x, rest)| (i128::from(x), rest)),
        Number::ZigzagI32 => zigzag_i32_at(bytes).map(|(x, rest)| (i128::from(x), rest)),
        Number::ZigzagI64 => zigzag_i64_at(bytes).map(|(x, rest)| (i128::from(x), rest)),
        _ => return fixed_seen(kind, bytes),
    };
    seen_number(bytes, read)
}

const NUMBERS: &[(Number, &str, Seen)] = &[
    (Number::U8, "", Seen::Short(0)),
    (Number::U8, "ff00", Seen::Number(255, 1)),
    (Number::U32Big, "00000102", Seen::Number(258, 4)),
    (Number::U32Big, "000001", Seen::Short(0)),
    (Number::U32Little, "0201000000", Seen::Number(258, 4)),
    (Number::U64Big, "000000000000005b", Seen::Number(91, 8)),
    (Number::U64Big, "0000000000005b", Seen::Short(0)),
    (Number::U64Little, "5b00000000000000", Seen::Number(91, 8)),
    (Number::I32Big, "ffffffff", Seen::Number(-1, 4)),
    (
        Number::I32Little,
        "00000080",
        Seen::Number(-2_147_483_648, 4),
    ),
    (
        Number::I64Big,
        "8000000000000000",
        Seen::Number(-9_223_372_036_854_775_808, 8),
    ),
    (
        Number::I64Little,
        "ffffffffffffff7f",
        Seen::Number(9_223_372_036_854_775_807, 8),
    ),
    (Number::I64Little, "ffffffffffffff", Seen::Short(0)),
    // varints, of which 300 is Protocol Buffers' own example
    (Number::Varint, "00", Seen::Number(0, 1)),
    (Number::Varint, "7f", Seen::Number(127, 1)),
    (Number::Varint, "8001", Seen::Number(128, 2)),
    (Number::Varint, "ac02ff", Seen::Number(300, 2)),
    (
        Number::Varint,
        "ffffffffffffffffff01",
        Seen::Number(18_446_744_073_709_551_615, 10),
    ),
    // not the shortest
    (Number::Varint, "8000", Seen::Number(0, 2)),
    (Number::Varint, "80808080808080808000", Seen::Number(0, 10)),
    // cut off
    (Number::Varint, "", Seen::Short(0)),
    (Number::Varint, "80", Seen::Short(0)),
    (Number::Varint, "808080808080808080", Seen::Short(0)),
    // the tenth byte is above 1, or has its high bit set
    (Number::Varint, "ffffffffffffffffff02", Seen::Bad(0)),
    (Number::Varint, "ffffffffffffffffff81", Seen::Bad(0)),
    (Number::Varint, "80808080808080808080", Seen::Bad(0)),
    (Number::Varint, "8080808080808080808080", Seen::Bad(0)),
    (
        Number::VarintU32,
        "ffffffff0f",
        Seen::Number(4_294_967_295, 5),
    ),
    (Number::VarintU32, "8080808010", Seen::Bad(0)),
    (Number::VarintU32, "ffffffffffffffffff01", Seen::Bad(0)),
    (Number::VarintU32, "80808080", Seen::Short(0)),
    (Number::VarintU32, "808080808080", Seen::Short(0)),
    // the examples of the Avro specification
    (Number::ZigzagI64, "00", Seen::Number(0, 1)),
    (Number::ZigzagI64, "01", Seen::Number(-1, 1)),
    (Number::ZigzagI64, "02", Seen::Number(1, 1)),
    (Number::ZigzagI64, "03", Seen::Number(-2, 1)),
    (Number::ZigzagI64, "04", Seen::Number(2, 1)),
    (Number::ZigzagI64, "7f", Seen::Number(-64, 1)),
    (Number::ZigzagI64, "8001", Seen::Number(64, 2)),
    (
        Number::ZigzagI64,
        "feffffffffffffffff01",
        Seen::Number(9_223_372_036_854_775_807, 10),
    ),
    (
        Number::ZigzagI64,
        "ffffffffffffffffff01",
        Seen::Number(-9_223_372_036_854_775_808, 10),
    ),
    (Number::ZigzagI64, "80", Seen::Short(0)),
    (Number::ZigzagI64, "ffffffffffffffffff03", Seen::Bad(0)),
    (Number::ZigzagI32, "01", Seen::Number(-1, 1)),
    (
        Number::ZigzagI32,
        "feffffff0f",
        Seen::Number(2_147_483_647, 5),
    ),
    (
        Number::ZigzagI32,
        "ffffffff0f",
        Seen::Number(-2_147_483_648, 5),
    ),
    (Number::ZigzagI32, "8080808010", Seen::Bad(0)),
    (Number::ZigzagI32, "8180808010", Seen::Bad(0)),
    (Number::ZigzagI32, "ffffffffff", Seen::Short(0)),
    (Number::ZigzagI16, "1e", Seen::Number(15, 1)),
    (Number::ZigzagI16, "feff03", Seen::Number(32_767, 3)),
    (Number::ZigzagI16, "ffff03", Seen::Number(-32_768, 3)),
    (Number::ZigzagI16, "808004", Seen::Bad(0)),
    (Number::ZigzagI16, "818004", Seen::Bad(0)),
    (Number::ZigzagI16, "ffff", Seen::Short(0)),
    (Number::ZigzagI16, "9e8000", Seen::Number(15, 3)),
    (Number::ZigzagI16, "", Seen::Short(0)),
];

fn number_seen_in(alloc: Global, kind: Number, text: &str) -> Result<Seen, Fail> {
    let bytes = hex::decode(alloc, text)?;
    Ok(number_seen(kind, &bytes))
}

// The first row that is read otherwise.
fn number_misread(alloc: Global, rows: &[(Number, &str, Seen)]) -> Result<Option<usize>, Fail> {
    for (row, (kind, text, want)) in rows.iter().enumerate() {
        if number_seen_in(alloc, *kind, text)? != *want {
            return Ok(Some(row));
        }
    }
    Ok(None)
}

#[test]
fn numbers_are_read(rt: HostRuntime) -> Result<(), Fail> {
    assert_eq!(rt; number_misread(rt.alloc(), NUMBERS)?, None);
    Ok(())
}

#[derive(Clone, Copy)]
enum Content {
    U32Big,
    U32Little,
    U64ThenBytes,
    Varint,
    Long,
    LongText,
}

fn content_seen(kind: Content, bytes: &[u8]) -> Seen {
    let read = match kind {
        Content::U32Big => u32_prefixed_at::<BigEndian>(bytes),
        Content::U32Little => u32_prefixed_at::<LittleEndian>(bytes),
        Content::U64ThenBytes => u64_then_bytes_at::<BigEndian>(bytes),
        Content::Varint => varint_prefixed_at(bytes),
        Content::Long => long_prefixed_at(bytes),
        Content::LongText => long_text_at(bytes).map(|(text, rest)| (text.as_bytes(), rest)),
    };
    seen_content(bytes, read)
}

const CONTENTS: &[(Content, &str, Seen)] = &[
    (Content::U32Big, "0000000361626300", Seen::Content(3, 7)),
    (Content::U32Big, "00000000", Seen::Content(0, 4)),
    (Content::U32Big, "000003", Seen::Short(0)),
    (Content::U32Big, "000000036162", Seen::Short(0)),
    (Content::U32Big, "ffffffff61", Seen::Short(0)),
    (Content::U32Little, "03000000616263", Seen::Content(3, 7)),
    (
        Content::U64ThenBytes,
        "0000000000000003616263",
        Seen::Content(3, 11),
    ),
    (Content::U64ThenBytes, "00000000000003", Seen::Short(0)),
    (
        Content::U64ThenBytes,
        "00000000000000036162",
        Seen::Short(8),
    ),
    (Content::U64ThenBytes, "ffffffffffffffff61", Seen::Short(8)),
    (Content::Varint, "03616263", Seen::Content(3, 4)),
    (Content::Varint, "0361", Seen::Short(0)),
    (Content::Varint, "80", Seen::Short(0)),
    (Content::Varint, "ffffffff0f61", Seen::Short(0)),
    (Content::Varint, "808080801061", Seen::Bad(0)),
    (Content::Long, "06616263", Seen::Content(3, 4)),
    (Content::Long, "00", Seen::Content(0, 1)),
    (Content::Long, "0661", Seen::Short(0)),
    (Content::Long, "0561", Seen::Bad(0)),
    (Content::Long, "feffffffffffffffff0161", Seen::Short(0)),
    // the example of the Avro specification, and two bytes of one character
    (Content::LongText, "06666f6f", Seen::Content(3, 4)),
    (Content::LongText, "04c3a9", Seen::Content(2, 3)),
    (Content::LongText, "02c3a9", Seen::Bad(0)),
    (Content::LongText, "02ff", Seen::Bad(0)),
    (Content::LongText, "04c3", Seen::Short(0)),
];

fn content_seen_in(alloc: Global, kind: Content, text: &str) -> Result<Seen, Fail> {
    let bytes = hex::decode(alloc, text)?;
    Ok(content_seen(kind, &bytes))
}

// The first row that is read otherwise.
fn content_misread(alloc: Global, rows: &[(Content, &str, Seen)]) -> Result<Option<usize>, Fail> {
    for (row, (kind, text, want)) in rows.iter().enumerate() {
        if content_seen_in(alloc, *kind, text)? != *want {
            return Ok(Some(row));
        }
    }
    Ok(None)
}

#[test]
fn contents_are_read(rt: HostRuntime) -> Result<(), Fail> {
    assert_eq!(rt; content_misread(rt.alloc(), CONTENTS)?, None);
    Ok(())
}

fn put_fixed(out: &mut Vec<u8>, kind: Number, number: i64) -> Result<(), AllocError> {
    let unsigned = number.cast_unsigned();
    match kind {
        Number::U32Big => put_u32::<BigEndian>(out, (unsigned % 0x1_0000_0000) as u32),
        Number::U32Little => put_u32::<LittleEndian>(out, (unsigned % 0x1_0000_0000) as u32),
        Number::U64Big => put_u64::<BigEndian>(out, unsigned),
        Number::I32Big => put_i32::<BigEndian>(out, (number % 0x8000_0000) as i32),
        Number::I64Big => put_i64::<BigEndian>(out, number),
        _ => put_i64::<LittleEndian>(out, number),
    }
}

fn put_number(out: &mut Vec<u8>, kind: Number, number: i64) -> Result<(), AllocError> {
    match kind {
        Number::Varint => put_varint(out, number.cast_unsigned()),
        Number::ZigzagI64 => put_zigzag(out, number),
        _ => put_fixed(out, kind, number),
    }
}

// Whether a number is so written behind the byte ff.
fn is_written(alloc: Global, kind: Number, number: i64, want: &str) -> Result<bool, Fail> {
    let mut out = Vec::new(alloc);
    out.push(0xff)?;
    put_number(&mut out, kind, number)?;
    Ok(out == hex::decode(alloc, want)?)
}

const WRITTEN: &[(Number, i64, &str)] = &[
    (Number::U32Big, 258, "ff00000102"),
    (Number::U32Little, 258, "ff02010000"),
    (Number::U64Big, 91, "ff000000000000005b"),
    (Number::I32Big, -1, "ffffffffff"),
    (Number::I64Big, 5, "ff0000000000000005"),
    (Number::I64Little, -2, "fffeffffffffffffff"),
    (Number::Varint, 0, "ff00"),
    (Number::Varint, 127, "ff7f"),
    (Number::Varint, 128, "ff8001"),
    (Number::Varint, 300, "ffac02"),
    (Number::Varint, 16_384, "ff808001"),
    (Number::Varint, -1, "ffffffffffffffffffff01"),
    (Number::ZigzagI64, 0, "ff00"),
    (Number::ZigzagI64, -1, "ff01"),
    (Number::ZigzagI64, 1, "ff02"),
    (Number::ZigzagI64, -64, "ff7f"),
    (Number::ZigzagI64, 64, "ff8001"),
    (Number::ZigzagI64, 2_147_483_647, "fffeffffff0f"),
    (
        Number::ZigzagI64,
        9_223_372_036_854_775_807,
        "fffeffffffffffffffff01",
    ),
    (
        Number::ZigzagI64,
        -9_223_372_036_854_775_808,
        "ffffffffffffffffffff01",
    ),
];

// The first row that is written otherwise.
fn number_miswritten(alloc: Global, rows: &[(Number, i64, &str)]) -> Result<Option<usize>, Fail> {
    for (row, (kind, number, want)) in rows.iter().enumerate() {
        if !is_written(alloc, *kind, *number, want)? {
            return Ok(Some(row));
        }
    }
    Ok(None)
}

#[test]
fn numbers_are_written(rt: HostRuntime) -> Result<(), Fail> {
    assert_eq!(rt; number_miswritten(rt.alloc(), WRITTEN)?, None);
    Ok(())
}

fn put_content(out: &mut Vec<u8>, kind: Content, content: &[u8]) -> Result<(), AllocError> {
    if content.len() > 1000 {
        return Ok(());
    }
    match kind {
        Content::U32Big => put_u32_prefixed::<BigEndian>(out, content),
        Content::U32Little => put_u32_prefixed::<LittleEndian>(out, content),
        Content::Varint => put_varint_prefixed(out, content),
        _ => put_long_prefixed(out, content),
    }
}

fn is_content_written(
    alloc: Global,
    kind: Content,
    content: &[u8],
    want: &str,
) -> Result<bool, Fail> {
    let mut out = Vec::new(alloc);
    put_content(&mut out, kind, content)?;
    Ok(out == hex::decode(alloc, want)?)
}

const CONTENTS_WRITTEN: &[(Content, &[u8], &str)] = &[
    (Content::U32Big, b"abc", "00000003616263"),
    (Content::U32Little, b"", "00000000"),
    (Content::Varint, b"abc", "03616263"),
    (Content::Long, b"foo", "06666f6f"),
    (Content::Long, b"", "00"),
];

// The first row that is written otherwise.
fn content_miswritten(
    alloc: Global,
    rows: &[(Content, &[u8], &str)],
) -> Result<Option<usize>, Fail> {
    for (row, (kind, content, want)) in rows.iter().enumerate() {
        if !is_content_written(alloc, *kind, content, want)? {
            return Ok(Some(row));
        }
    }
    Ok(None)
}

#[test]
fn contents_are_written(rt: HostRuntime) -> Result<(), Fail> {
    assert_eq!(rt; content_miswritten(rt.alloc(), CONTENTS_WRITTEN)?, None);
    Ok(())
}
