// The values of a page.
ghost use Rattle.std.specs.Prelude.{◌≡◌, ◌<◌, ◌≤◌, ◌*◌, ◌^◌, ◌++◌, ◌∷◌, [], length, replicate, true, count_by, IfOk};
ghost use Rattle.byteorder.specs.Endian.{little_number};
ghost use Rattle.byte_fields.specs.Numbers.{number_at};
ghost use Rattle.byte_fields.specs.Prefixed.{text_at};
ghost use Rattle.byte_fields.specs.Reading.{Gives};
ghost use Rattle.parquet_meta.specs.Reading.{with_value};
ghost use Rattle.parquet_pages.specs.Levels.{bits_of};
ghost use Rattle.parquet_pages.specs.Plain.{array_at, value_at, cell_at, cells_at, boolean_cells, booleans_at, values_at};
ghost use Rattle.parquet_pages.specs.Answers.{Reads};

use crate::bits::push_bytes;
use crate::read_error::ReadError;
use byte_fields::{FieldError, bytes_at, i32_at, i64_at, u32_prefixed_at, utf8_text};
use byteorder::LittleEndian;
use hudi_base::{Bytes, Column, Name, Value, Values};
use sqlite_items::Items;
use std::alloc::{AllocError, Global};

/// The physical type of booleans.
const BOOLEAN: i32 = 0;
/// The physical type of numbers of 32 bits.
const INT32: i32 = 1;
/// The physical type of numbers of 64 bits.
const INT64: i32 = 2;
/// The physical type of bytes and texts.
const BYTE_ARRAY: i32 = 6;

// A text in UTF-8 behind its length.
#[tactic(auto, unfolding(byte_fields::specs::Prefixed::text_at))]
fn text_at(bytes: &[u8]) -> Result<(&str, &[u8]), FieldError>
    ensures { Gives (λ x. (x.0.now, x.1.now)) result (text_at (number_at little_number 4) bytes.now) }
{
    let (content, rest) = u32_prefixed_at::<LittleEndian>(bytes)?;
    match utf8_text(content) {
        Some(text) => Ok((text, rest)),
        None => Err(FieldError::bad(bytes)),
    }
}

// A byte array of a column.
#[tactic(auto, unfolding(crate::specs::Plain::array_at))]
fn array_at<'a>(alloc: Global, utf8: bool, bytes: &'a [u8]) -> Result<(Value, &'a [u8]), ReadError>
    ensures { Reads (λ x. (x.0, x.1.now)) result (array_at utf8 bytes.now) }
{
    if utf8 {
        let (text, rest) = text_at(bytes)?;
        Ok((Value::Text(Name::from_text(alloc, text)?), rest))
    } else {
        let (content, rest) = u32_prefixed_at::<LittleEndian>(bytes)?;
        Ok((Value::Bytes(Bytes::from_slice(alloc, content)?), rest))
    }
}

// A value of a column that isn't boolean.
#[tactic(auto, unfolding(crate::specs::Plain::value_at))]
fn value_at<'a>(
    alloc: Global,
    column: &Column,
    bytes: &'a [u8],
) -> Result<(Value, &'a [u8]), ReadError>
    ensures { Reads (λ x. (x.0, x.1.now)) result (value_at column.now bytes.now) }
{
    match column.physical {
        INT32 => {
            let (number, rest) = i32_at::<LittleEndian>(bytes)?;
            Ok((Value::Int(number), rest))
        }
        INT64 => {
            let (number, rest) = i64_at::<LittleEndian>(bytes)?;
            Ok((Value::Long(number), rest))
        }
        BYTE_ARRAY => array_at(alloc, column.utf8, bytes),
        _ => Err(ReadError::Field(FieldError::bad(bytes))),
    }
}

// Adds a cell.
fn push_cell<'a>(
    alloc: Global,
    column: &Column,
    level: bool,
    bytes: &'a [u8],
    cells: &mut Values,
) -> Result<&'a [u8], ReadError>
    ensures { Reads (λ rest. (cells.new, rest.now)) result
        (with_value (λ cell. cells.old ++ cell ∷ []) (cell_at column.now level bytes.now)) }
{
    if level {
        let (value, rest) = value_at(alloc, column, bytes)?;
        cells.push(value)?;
        Ok(rest)
    } else {
        cells.push(Value::Null)?;
        Ok(bytes)
    }
}

// A value that isn't a boolean has at least so many bytes.
const LEAST_VALUE_BYTES: usize = 4;

// No cells, with room for as many of so many as the bytes may hold values.
fn no_cells(alloc: Global, count: usize, bytes: &[u8]) -> Result<Values, AllocError>
    ensures { IfOk result (λ cells. cells ≡ []) }
{
    let room = count.min(bytes.len() / LEAST_VALUE_BYTES);
    Ok(Items::from_vec(Vec::with_capacity(alloc, room)?))
}

// Cells of which the levels tell the nulls.
fn cells_at<'a>(
    alloc: Global,
    column: &Column,
    levels: &[bool],
    bytes: &'a [u8],
) -> Result<(Values, &'a [u8]), ReadError>
    ensures { Reads (λ x. (x.0, x.1.now)) result (cells_at column.now levels.now bytes.now) }
{
    let mut cells = no_cells(alloc, levels.len(), bytes)?;
    let mut rest = bytes;
    for level in levels {
        rest = push_cell(alloc, column, *level, rest, &mut cells)?;
    }
    Ok((cells, rest))
}

// So many cells without nulls. The number is claimed, so each cell is kept only once it has been read.
fn full_cells_at<'a>(
    alloc: Global,
    column: &Column,
    count: u32,
    bytes: &'a [u8],
) -> Result<(Values, &'a [u8]), ReadError>
    ensures { Reads (λ x. (x.0, x.1.now)) result (cells_at column.now (replicate count true) bytes.now) }
{
    let mut cells = no_cells(alloc, count as usize, bytes)?;
    let mut rest = bytes;
    for _cell in 0..count {
        rest = push_cell(alloc, column, true, rest, &mut cells)?;
    }
    Ok((cells, rest))
}

// Cells of booleans, whose values are the bits in their order.
fn boolean_cells(alloc: Global, levels: &[bool], bits: &[bool]) -> Result<Values, AllocError>
    ensures { IfOk result (λ cells. cells ≡ boolean_cells levels.now bits.now) }
{
    let mut cells = Items::new(alloc);
    let mut left = bits;
    for level in levels {
        if *level {
            let [bit, more @ ..] = left else {
                return Ok(cells);
            };
            cells.push(Value::Boolean(*bit))?;
            left = more;
        } else {
            cells.push(Value::Null)?;
        }
    }
    Ok(cells)
}

// The bits of bytes.
fn bits_of(alloc: Global, bytes: &[u8]) -> Result<Vec<bool>, AllocError>
    requires { 8 * length bytes.now < 2 ^ 64 }
    ensures { IfOk result (λ bits. bits.items ≡ bits_of bytes.now) }
{
    let mut bits = Vec::new(alloc);
    push_bytes(&mut bits, 8 * bytes.len(), bytes)?;
    Ok(bits)
}

fn count_of(levels: &[bool]) -> usize
    ensures count { result ≡ count_by (λ level. level) levels.now }
    ensures within { result ≤ length levels.now }
{
    levels.iter().filter(|level| **level).count()
}

// Booleans of which the levels tell the nulls.
#[tactic(auto, unfolding(crate::specs::Plain::booleans_at))]
fn booleans_at<'a>(
    alloc: Global,
    levels: &[bool],
    bytes: &'a [u8],
) -> Result<(Values, &'a [u8]), ReadError>
    ensures { Reads (λ x. (x.0, x.1.now)) result (booleans_at levels.now bytes.now) }
{
    let (content, rest) = bytes_at(count_of(levels).div_ceil(8), bytes)?;
    let bits = bits_of(alloc, content)?;
    Ok((boolean_cells(alloc, levels, &bits)?, rest))
}

// So many booleans without nulls. The levels are made only once the bytes are known to be there.
#[tactic(auto, unfolding(crate::specs::Plain::booleans_at))]
fn full_booleans_at<'a>(
    alloc: Global,
    count: u32,
    bytes: &'a [u8],
) -> Result<(Values, &'a [u8]), ReadError>
    ensures { Reads (λ x. (x.0, x.1.now)) result (booleans_at (replicate count true) bytes.now) }
{
    let (content, rest) = bytes_at((count as usize).div_ceil(8), bytes)?;
    let bits = bits_of(alloc, content)?;
    let levels = vec![in alloc; true; count as usize]?;
    Ok((boolean_cells(alloc, &levels, &bits)?, rest))
}

/// The cells of a column of which the levels tell the nulls, and what is behind them.
#[tactic(auto, unfolding(crate::specs::Plain::values_at))]
pub(crate) fn values_at<'a>(
    alloc: Global,
    column: &Column,
    levels: &[bool],
    bytes: &'a [u8],
) -> Result<(Values, &'a [u8]), ReadError>
    ensures { Reads (λ x. (x.0, x.1.now)) result (values_at column.now levels.now bytes.now) }
{
    if column.physical == BOOLEAN {
        booleans_at(alloc, levels, bytes)
    } else {
        cells_at(alloc, column, levels, bytes)
    }
}

/// So many cells of a column without nulls, and what is behind them.
#[tactic(auto, unfolding(crate::specs::Plain::values_at))]
pub(crate) fn full_values_at<'a>(
    alloc: Global,
    column: &Column,
    count: u32,
    bytes: &'a [u8],
) -> Result<(Values, &'a [u8]), ReadError>
    ensures { Reads (λ x. (x.0, x.1.now)) result (values_at column.now (replicate count true) bytes.now) }
{
    if column.physical == BOOLEAN {
        full_booleans_at(alloc, count, bytes)
    } else {
        full_cells_at(alloc, column, count, bytes)
    }
}
