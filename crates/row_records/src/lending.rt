// Rows of a content whose keys and bodies are lent.
ghost use Rattle.std.specs.Prelude.{◌≡◌, ◌≢◌, map, true, Ok, MatchOption};
ghost use Rattle.payload_merge.specs.Contents.{DataPlace, data_writes};
ghost use Rattle.payload_merge.specs.RowCodec.{AnswersLent};
ghost use Rattle.payload_merge.specs.RowRefs.{row_in, write_in};
ghost use Rattle.avro_schema.specs.Written.{written};
ghost use Rattle.row_values.specs.Cells.{AreCells, cells_view, record_of_cells};
ghost use Rattle.block_contents.specs.Contents.{content_at, items_at};
ghost use Rattle.block_contents.specs.Readers.{Reads};
ghost use Rattle.row_records.specs.Records.{CanBeLent, cells_at, record_at, record_fields, record_in, rows_in};
ghost use Rattle.row_records.specs.Readers.{WritesRecord, place_of, put_at, row_behind_length};

use crate::head::{RowHead, split_cells};
use crate::lengths::fields_length;
use crate::place::Place;
use crate::reading::found_in;
use crate::record_layout::RecordLayout;
use block_contents::{ReadError, count_at};
use byte_fields::{FieldError, u32_prefixed_at};
use byteorder::BigEndian;
use hudi_base::{InstantTime, Name};
use payload_merge::{RowError, RowRef, WriteRef};
use row_values::CellRef;
use std::alloc::Global;

// Where the row's own cells begin in a record with these cells, if it is in its written form: no number takes more bytes than
// it needs, so the record is no longer than that form.
fn own_start(records: &RecordLayout, cells: &[CellRef<'_>], bytes: &[u8]) -> Option<usize>
    requires fit { AreCells (record_fields records.now.own.fields) (cells_view cells.now) }
    requires read { cells_at (record_fields records.now.own.fields) bytes.now ≡ Ok (cells_view cells.now) }
    ensures { MatchOption result
        (bytes.now ≢ written (record_of_cells (record_fields records.now.own.fields) (cells_view cells.now)))
        (λ start. WritesRecord records.now.own (cells_view cells.now) bytes.now start) }
{
    let (texts, own) = split_cells(cells);
    let start = fields_length(records.text_fields(), texts);
    if start + fields_length(records.own.fields.as_slice(), own) != bytes.len() {
        return None;
    }
    Some(start)
}

// The row of an instant of which this is told, with this body.
fn row_ref<'a>(commit: InstantTime, head: RowHead<'a>, body: &'a [u8]) -> RowRef<'a>
    ensures key { result.key.now ≡ head.entry.key.now }
    ensures rank { result.rank ≡ head.entry.rank }
    ensures commit { result.commit ≡ commit }
    ensures seq { result.seq ≡ head.entry.seq }
    ensures body { result.body.now ≡ body.now }
{
    let RowHead { key, rank, seq } = head;
    RowRef {
        key: key.as_bytes(),
        rank,
        commit,
        seq,
        body,
    }
}

// The row of a record in its written form.
#[tactic(auto, unfolding(crate::specs::Records::record_in))]
fn row_in<'a>(
    alloc: Global,
    records: &RecordLayout,
    place: &Place<'_>,
    bytes: &'a [u8],
) -> Result<RowRef<'a>, ReadError>
    ensures { Reads (row_in place.now.partition.now) result (record_in true records.now.own (place_of place.now) bytes.now) }
{
    let found = found_in(alloc, records, place, bytes)?;
    let Some(start) = own_start(records, &found.cells, bytes) else {
        return Err(ReadError::Field(FieldError::bad(bytes)));
    };
    let (_, body) = bytes.split_at(start);
    Ok(row_ref(place.t, found.head, body))
}

fn row_behind_length<'a>(
    alloc: Global,
    records: &RecordLayout,
    place: &Place<'_>,
    bytes: &'a [u8],
) -> Result<(RowRef<'a>, &'a [u8]), ReadError>
    ensures { Reads (λ x. (row_in place.now.partition.now x.0, x.1.now)) result (row_behind_length true records.now.own (place_of place.now) bytes.now) }
{
    let (content, rest) = u32_prefixed_at::<BigEndian>(bytes)?;
    match row_in(alloc, records, place, content) {
        Ok(row) => Ok((row, rest)),
        Err(error) => Err(error),
    }
}

// A row behind its length. Whatever is wrong is wrong at its first byte.
#[tactic(auto, unfolding(crate::specs::Records::record_at))]
fn row_at<'a>(
    alloc: Global,
    records: &RecordLayout,
    place: &Place<'_>,
    bytes: &'a [u8],
) -> Result<(RowRef<'a>, &'a [u8]), ReadError>
    ensures { Reads (λ x. (row_in place.now.partition.now x.0, x.1.now)) result (record_at true records.now.own (place_of place.now) bytes.now) }
{
    match row_behind_length(alloc, records, place, bytes) {
        Ok(found) => Ok(found),
        Err(error) => Err(error.of_item(bytes)),
    }
}

// The puts of so many rows.
fn puts_at<'a>(
    alloc: Global,
    records: &RecordLayout,
    place: &Place<'_>,
    count: u32,
    bytes: &'a [u8],
) -> Result<(Vec<WriteRef<'a>>, &'a [u8]), ReadError>
    ensures { Reads (λ x. (map (write_in place.now.partition.now) x.0.items, x.1.now)) result (items_at (put_at true records.now.own (place_of place.now)) count bytes.now) }
{
    let mut found = Vec::new(alloc);
    let mut rest = bytes;
    for _ in 0..count {
        match row_at(alloc, records, place, rest) {
            Ok((row, after)) => {
                if found.push(WriteRef::Put(row)).is_err() {
                    return Err(ReadError::Memory);
                }
                rest = after;
            }
            Err(error) => return Err(error),
        }
    }
    Ok((found, rest))
}

// The puts, behind which nothing stands.
#[tactic(auto, unfolding(block_contents::specs::Contents::content_at))]
fn puts_in<'a>(
    alloc: Global,
    records: &RecordLayout,
    place: &Place<'_>,
    content: &'a [u8],
) -> Result<Vec<WriteRef<'a>>, ReadError>
    ensures { Reads (λ writes. map (write_in place.now.partition.now) writes.items) result (content_at (put_at true records.now.own (place_of place.now)) content.now) }
{
    let (count, rest) = count_at(content)?;
    let (writes, rest) = puts_at(alloc, records, place, count, rest)?;
    if !rest.is_empty() {
        return Err(ReadError::Field(FieldError::bad(rest)));
    }
    Ok(writes)
}

impl RecordLayout {
    /// The same writes, whose keys and bodies are lent from the content, exactly where each of its records is in its
    /// written form; else none, and `block_writes` has them. `BadContent` comes as it does there.
    pub fn lent_writes<'a>(
        &self,
        alloc: Global,
        t: InstantTime,
        partition: &Name,
        file_id: &Name,
        content: &'a [u8],
    ) -> Result<Option<Vec<WriteRef<'a>>>, RowError>
        ensures { let place : DataPlace = record { instant = t; partition = partition.now; file_id = file_id.now } in
            AnswersLent (λ writes. map (write_in partition.now) writes.items)
            (data_writes (rows_in self.now.own) place content.now) (CanBeLent self.now.own place content.now) result }
    {
        let place = Place::new(t, partition, file_id);
        match puts_in(alloc, self, &place, content) {
            Ok(writes) => Ok(Some(writes)),
            Err(ReadError::Memory) => Err(RowError::Memory),
            Err(ReadError::Field(_)) => {
                self.block_writes(alloc, t, partition, file_id, content)?;
                Ok(None)
            }
        }
    }
}
