// Rows of a content, each with memory of its own.
ghost use Rattle.std.specs.Prelude.{false};
ghost use Rattle.payload_merge.specs.Contents.{DataPlace, data_writes};
ghost use Rattle.payload_merge.specs.RowCodec.{AnswersContent};
ghost use Rattle.block_contents.specs.Contents.{content_at, items_at};
ghost use Rattle.block_contents.specs.Readers.{Reads};
ghost use Rattle.row_records.specs.Records.{record_in, rows_in};
ghost use Rattle.row_records.specs.Readers.{Finds, place_of, put_at, put_behind_length};

use crate::cells::{head_at, record_cells};
use crate::head::RowHead;
use crate::own_row::row_of;
use crate::place::Place;
use crate::record_layout::RecordLayout;
use block_contents::{ReadError, count_at};
use byte_fields::{FieldError, u32_prefixed_at};
use byteorder::BigEndian;
use hudi_base::{InstantTime, Name};
use payload_merge::{Row, RowError, Write, Writes};
use row_values::CellRef;
use std::alloc::Global;

// A row that was found in a record, with the record's cells.
#[derive(Drop)]
pub(crate) struct FoundRow<'a> {
    pub(crate) head: RowHead<'a>,
    pub(crate) cells: Vec<CellRef<'a>>,
}

// The row of a record.
pub(crate) fn found_in<'a>(
    alloc: Global,
    records: &RecordLayout,
    place: &Place<'_>,
    bytes: &'a [u8],
) -> Result<FoundRow<'a>, ReadError>
    ensures { Finds records.now.own (place_of place.now) bytes.now result }
{
    let cells = record_cells(alloc, records.fields.as_slice(), bytes)?;
    match head_at(&records.own, place, &cells) {
        Some(head) => Ok(FoundRow { head, cells }),
        None => Err(ReadError::Field(FieldError::bad(bytes))),
    }
}

// The row of a record, with memory of its own.
#[tactic(auto, unfolding(crate::specs::Records::record_in))]
fn row_in(
    alloc: Global,
    records: &RecordLayout,
    place: &Place<'_>,
    bytes: &[u8],
) -> Result<Row, ReadError>
    ensures { Reads (λ row. row) result (record_in false records.now.own (place_of place.now) bytes.now) }
{
    let FoundRow { head, cells } = found_in(alloc, records, place, bytes)?;
    Ok(row_of(alloc, &records.own, place.t, place.partition, &cells, head)?)
}

fn put_behind_length<'a>(
    alloc: Global,
    records: &RecordLayout,
    place: &Place<'_>,
    bytes: &'a [u8],
) -> Result<(Write, &'a [u8]), ReadError>
    ensures { Reads (λ x. (x.0, x.1.now)) result (put_behind_length false records.now.own (place_of place.now) bytes.now) }
{
    let (content, rest) = u32_prefixed_at::<BigEndian>(bytes)?;
    let row = row_in(alloc, records, place, content)?;
    Ok((Write::Put(row), rest))
}

// The put of a row behind its length. Whatever is wrong is wrong at its first byte.
#[tactic(auto, using(crate::proofs::ContentLemmas::put_at_is))]
fn put_at<'a>(
    alloc: Global,
    records: &RecordLayout,
    place: &Place<'_>,
    bytes: &'a [u8],
) -> Result<(Write, &'a [u8]), ReadError>
    ensures { Reads (λ x. (x.0, x.1.now)) result (put_at false records.now.own (place_of place.now) bytes.now) }
{
    match put_behind_length(alloc, records, place, bytes) {
        Ok(found) => Ok(found),
        Err(error) => Err(error.of_item(bytes)),
    }
}

// The puts of so many rows.
fn puts_at<'a>(
    alloc: Global,
    records: &RecordLayout,
    place: &Place<'_>,
    count: u32,
    bytes: &'a [u8],
) -> Result<(Writes, &'a [u8]), ReadError>
    ensures { Reads (λ x. (x.0, x.1.now)) result (items_at (put_at false records.now.own (place_of place.now)) count bytes.now) }
{
    let mut found = Writes::new(alloc);
    let mut rest = bytes;
    for _ in 0..count {
        let (write, after) = put_at(alloc, records, place, rest)?;
        found.push(write)?;
        rest = after;
    }
    Ok((found, rest))
}

// The puts, behind which nothing stands.
#[tactic(auto, unfolding(block_contents::specs::Contents::content_at))]
pub(crate) fn puts_in(
    alloc: Global,
    records: &RecordLayout,
    place: &Place<'_>,
    content: &[u8],
) -> Result<Writes, ReadError>
    ensures { Reads (λ writes. writes) result (content_at (put_at false records.now.own (place_of place.now)) content.now) }
{
    let (count, rest) = count_at(content)?;
    let (writes, rest) = puts_at(alloc, records, place, count, rest)?;
    if !rest.is_empty() {
        return Err(ReadError::Field(FieldError::bad(rest)));
    }
    Ok(writes)
}

impl RecordLayout {
    /// The puts of the rows for which a content stands that was found in a data block of the instant `t`, in a file group
    /// of this partition and file id. `BadContent` comes exactly where it stands for none: at 0 where fewer than 8 bytes
    /// are there or the version isn't 3, else at the first byte of the record that can't be read, its length included, or
    /// of what stands behind the last. The only other error is want of memory.
    pub fn block_writes(
        &self,
        alloc: Global,
        t: InstantTime,
        partition: &Name,
        file_id: &Name,
        content: &[u8],
    ) -> Result<Writes, RowError>
        ensures { let place : DataPlace = record { instant = t; partition = partition.now; file_id = file_id.now } in
            AnswersContent (data_writes (rows_in self.now.own) place content.now) result }
    {
        let place = Place::new(t, partition, file_id);
        match puts_in(alloc, self, &place, content) {
            Ok(writes) => Ok(writes),
            Err(error) => Err(error.of_content(content.len())),
        }
    }
}
