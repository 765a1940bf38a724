// Contents of data blocks, as they are read.
ghost use Rattle.std.specs.Prelude.{◌≡◌, ◌<◌, ◌^◌, ℕ, List, [], map};
ghost use Rattle.byte_fields.specs.Reading.{Gives};
ghost use Rattle.payload_merge.specs.RowRefs.{write_in};
ghost use Rattle.payload_merge.specs.declared.row.Write.TheVariants.{Put};
ghost use Rattle.plain_rows.specs.Contents.{content_at, place_at, row_at, rows_at, sized_at, told_at};
ghost use Rattle.block_contents.specs.Readers.{Reads};
ghost use Rattle.plain_rows.specs.Readers.{puts_if_read, row_of, with_before};

use crate::texts::is_sized_text;
use block_contents::ReadError;
use byte_fields::{FieldError, i64_at, u32_at, u32_prefixed_at};
use byteorder::BigEndian;
use hudi_base::InstantTime;
use payload_merge::{RowRef, WriteRef};
use std::alloc::Global;

pub(crate) const MOST_KEY_BYTES: usize = 1000;

pub(crate) const MOST_BODY_BYTES: usize = 65_536;

// A row has at least so many bytes: a key of one byte and a body of none, the length of each, and the rank.
const LEAST_ROW_BYTES: usize = 17;

// Whether the rows tell their places.
#[tactic(auto, unfolding(crate::specs::Contents::told_at))]
fn told_at(bytes: &[u8]) -> Result<(bool, &[u8]), FieldError>
    ensures { Gives (λ x. (x.0, x.1.now)) result (told_at bytes.now) }
{
    let (version, rest) = u32_at::<BigEndian>(bytes)?;
    match version {
        3 => Ok((false, rest)),
        4 => Ok((true, rest)),
        _ => Err(FieldError::bad(bytes)),
    }
}

// A text of at least and at most so many bytes, behind its length.
#[tactic(auto, unfolding(crate::specs::Contents::sized_at))]
fn sized_at(least: usize, most: usize, bytes: &[u8]) -> Result<(&[u8], &[u8]), FieldError>
    ensures { Gives (λ x. (x.0.now, x.1.now)) result (sized_at least most bytes.now) }
{
    let (text, rest) = u32_prefixed_at::<BigEndian>(bytes)?;
    if !is_sized_text(least, most, text) {
        return Err(FieldError::bad(bytes));
    }
    Ok((text, rest))
}

// The place that is told, or this one.
#[tactic(auto, unfolding(crate::specs::Contents::place_at))]
fn place_at(told: bool, place: u32, bytes: &[u8]) -> Result<(u32, &[u8]), FieldError>
    ensures { Gives (λ x. (x.0, x.1.now)) result (place_at told place bytes.now) }
{
    if told {
        u32_at::<BigEndian>(bytes)
    } else {
        Ok((place, bytes))
    }
}

// A row as it stands in a content.
#[derive(Clone, Copy)]
struct ContentRow<'a> {
    key: &'a [u8],
    rank: i64,
    seq: u32,
    body: &'a [u8],
}

// A row, whatever its instant and its partition.
#[tactic(auto, unfolding(crate::specs::Contents::row_at))]
fn row_at(told: bool, place: u32, bytes: &[u8]) -> Result<(ContentRow<'_>, &[u8]), FieldError>
    ensures { (instant : ℕ) (partition : List ℕ) → Gives (λ x. (row_of instant partition x.0, x.1.now)) result
        (row_at instant partition told place bytes.now) }
{
    let (seq, rest) = place_at(told, place, bytes)?;
    let (key, rest) = sized_at(1, MOST_KEY_BYTES, rest)?;
    let (rank, rest) = i64_at::<BigEndian>(rest)?;
    let (body, rest) = sized_at(0, MOST_BODY_BYTES, rest)?;
    Ok((
        ContentRow {
            key,
            rank,
            seq,
            body,
        },
        rest,
    ))
}

// The put of a row that an instant wrote.
fn put_of<'a>(commit: InstantTime, row: ContentRow<'a>) -> WriteRef<'a>
    ensures { (partition : List ℕ) → write_in partition result ≡ Put (row_of commit partition row.entry) }
{
    WriteRef::Put(RowRef {
        key: row.key,
        rank: row.rank,
        commit,
        seq: row.seq,
        body: row.body,
    })
}

// So many rows, as puts. There is room from the start for as many of them as the bytes may hold.
fn rows_at<'a>(
    alloc: Global,
    commit: InstantTime,
    told: bool,
    count: u32,
    bytes: &'a [u8],
) -> Result<(Vec<WriteRef<'a>>, &'a [u8]), ReadError>
    ensures { (partition : List ℕ) → Reads (λ x. (map (write_in partition) x.0.items, x.1.now)) result
        (with_before [] (rows_at commit partition told 0 count bytes.now)) }
{
    let room = (count as usize).min(bytes.len() / LEAST_ROW_BYTES);
    let mut puts = Vec::with_capacity(alloc, room)?;
    let mut rest = bytes;
    for place in 0..count {
        let (row, after) = row_at(told, place, rest)?;
        if puts.push(put_of(commit, row)).is_err() {
            return Err(ReadError::Memory);
        }
        rest = after;
    }
    Ok((puts, rest))
}

/// The puts of a content's rows, behind which nothing stands. Their keys and bodies are lent from it.
#[tactic(auto, unfolding(crate::specs::Contents::content_at))]
pub(crate) fn content_at<'a>(
    alloc: Global,
    commit: InstantTime,
    content: &'a [u8],
) -> Result<Vec<WriteRef<'a>>, ReadError>
    ensures { (partition : List ℕ) → Reads (λ puts. map (write_in partition) puts.items) result
        (puts_if_read (content_at commit partition content.now)) }
{
    let (told, rest) = told_at(content)?;
    let (count, rest) = u32_at::<BigEndian>(rest)?;
    let (puts, rest) = rows_at(alloc, commit, told, count, rest)?;
    if !rest.is_empty() {
        return Err(ReadError::Field(FieldError::bad(rest)));
    }
    Ok(puts)
}
