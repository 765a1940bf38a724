// Contents of data blocks, each behind its length in four bytes. The blocks are those of the instant
// 20240101000000001 in the file group `f` of the partition `x`.
ghost use Rattle.std.specs.Prelude.{◌≡◌, ◌++◌, ◌∷◌, [], All, Ok, map, IfOk, OnOk};
ghost use Rattle.payload_merge.specs.declared.row.Write.TheVariants.{Put};
ghost use Rattle.payload_merge.specs.Contents.{DataPlace, data_writes};
ghost use Rattle.row_values.specs.RowCells.{IsOwnRow};
ghost use Rattle.row_records.specs.Records.{rows_in};

use anyhow::{Result, bail};
use byte_fields::u32_prefixed_at;
use byteorder::BigEndian;
use hudi_base::{Bytes, InstantTime, Name};
use payload_merge::{Row, RowCodec, Write, Writes};
use row_codec::FlatCodec;
use std::alloc::Global;

/// Where the blocks stand.
#[derive(Drop)]
pub(crate) struct Place {
    pub(crate) time: InstantTime,
    pub(crate) partition: Name,
    pub(crate) file: Name,
}

/// A line of JSON for each row of contents.
pub fn lines_of(alloc: Global, codec: &FlatCodec, contents: &[u8]) -> Result<Bytes> {
    let place = place_of_blocks(alloc)?;
    let mut out = Vec::new(alloc);
    let mut rest = contents;
    for _ in 0..contents.len() {
        if rest.is_empty() {
            break;
        }
        rest = put_first(alloc, codec, &place, rest, &mut out)?;
    }
    Ok(Bytes::from_vec(out))
}

// Adds the lines of the first content, and gives what stands behind it.
fn put_first<'a>(
    alloc: Global,
    codec: &FlatCodec,
    place: &Place,
    contents: &'a [u8],
    out: &mut Vec<u8>,
) -> Result<&'a [u8]> {
    let (content, rest) = next_content(contents)?;
    let rows = rows_of(alloc, codec, place, content)?;
    put_lines(alloc, codec, rows.as_slice(), out)?;
    Ok(rest)
}

/// Where all the blocks stand.
pub(crate) fn place_of_blocks(alloc: Global) -> Result<Place> {
    let Some(time) = InstantTime::from_text(b"20240101000000001") else {
        bail!("no time");
    };
    Ok(Place {
        time,
        partition: Name::from_text(alloc, "x")?,
        file: Name::from_text(alloc, "f")?,
    })
}

/// The next content, and what stands behind it.
pub(crate) fn next_content(bytes: &[u8]) -> Result<(&[u8], &[u8])> {
    match u32_prefixed_at::<BigEndian>(bytes) {
        Ok(found) => Ok(found),
        Err(_) => bail!("a content that is cut short"),
    }
}

fn writes_of(alloc: Global, codec: &FlatCodec, place: &Place, content: &[u8]) -> Result<Writes>
    ensures { let at : DataPlace = record {
      instant = place.now.time;
      partition = place.now.partition;
      file_id = place.now.file;
    } in
        IfOk result (λ writes. data_writes (rows_in codec.now.records.own) at content.now ≡ Ok writes) }
{
    match codec.block_writes(alloc, place.time, &place.partition, &place.file, content) {
        Ok(writes) => Ok(writes),
        Err(_) => bail!("a content that isn't read"),
    }
}

// Adds the row that is put at the end.
fn push_row(rows: &mut Vec<Row>, write: Write) -> Result<()>
    ensures { OnOk result (map Put rows.new.items ≡ map Put rows.old.items ++ write ∷ []) }
{
    match write {
        Write::Put(row) => Ok(rows.push(row)?),
        Write::Del { .. } => bail!("a delete"),
    }
}

// The rows that are put.
fn rows_put(alloc: Global, writes: Writes) -> Result<Vec<Row>>
    ensures { IfOk result (λ rows. writes ≡ map Put rows.items) }
{
    let mut rows = Vec::with_capacity(alloc, writes.len())?;
    for write in writes.into_vec() {
        push_row(&mut rows, write)?;
    }
    Ok(rows)
}

// The rows of a content.
fn rows_of(alloc: Global, codec: &FlatCodec, place: &Place, content: &[u8]) -> Result<Vec<Row>>
    ensures { IfOk result (λ rows. All (IsOwnRow codec.now.records.own) rows.items) }
{
    let writes = writes_of(alloc, codec, place, content)?;
    let rows = rows_put(alloc, writes)?;
    Ok(rows)
}

// Adds the line of a row.
fn put_line(alloc: Global, codec: &FlatCodec, row: &Row, out: &mut Vec<u8>) -> Result<()>
    requires { IsOwnRow codec.now.records.own row.now }
{
    let Ok(text) = codec.json_of(alloc, row) else {
        bail!("out of memory");
    };
    out.extend_from_slice(text.as_slice())?;
    Ok(out.push(b'\n')?)
}

fn put_lines(alloc: Global, codec: &FlatCodec, rows: &[Row], out: &mut Vec<u8>) -> Result<()>
    requires { All (IsOwnRow codec.now.records.own) rows.now }
{
    for row in rows {
        put_line(alloc, codec, row, out)?;
    }
    Ok(())
}
