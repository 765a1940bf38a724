// The contents of data blocks.
ghost use Rattle.std.specs.Prelude.{◌≡◌, ◌<◌, ◌≤◌, ◌^◌, ◌++◌, ℕ, List, All, Ok, IsUtf8, length, flat_map, string_bytes, IfOk, IfErr, OnOk};
ghost use Rattle.hudi_base.specs.declared.value.Value.{Text};
ghost use Rattle.avro_schema.specs.Written.{written};
ghost use Rattle.payload_merge.specs.declared.row_error.RowError.TheVariants.{Memory};
ghost use Rattle.payload_merge.specs.Contents.{AreRowsOf};
ghost use Rattle.row_values.specs.RowCells.{IsOwnRow, seqno_text};
ghost use Rattle.row_records.specs.Records.{CanBeLent, record_bytes, row_bytes, rows_bytes, rows_in};
ghost use Rattle.row_records.specs.Readers.{HasSeqno, IsWritten};

use crate::record_layout::RecordLayout;
use block_contents::put_head;
use byte_fields::{put_long_prefixed, put_u32_prefixed};
use byteorder::BigEndian;
use hudi_base::{Bytes, InstantTime, Name};
use payload_merge::{Row, RowError};
use std::alloc::{AllocError, Global};
use std::fmt::Write;

// Seventeen digits, three bytes between, and a u32.
const MOST_SEQNO_BYTES: usize = 30;

// Bytes that are a text, as one.
fn text_of(bytes: &[u8]) -> &str
    requires { IsUtf8 bytes.now }
    ensures { result.now ≡ bytes.now }
{
    match std::str::from_utf8(bytes) {
        Ok(text) => text,
        Err(_) => unreachable!(),
    }
}

/// The text that tells where a row was written: its instant, and its place in the batch.
pub fn seqno(alloc: Global, commit: InstantTime, seq: u32) -> Result<String, AllocError>
    ensures text { IfOk result (λ text. string_bytes text ≡ seqno_text commit seq) }
    ensures known { OnOk result (HasSeqno commit seq) }
{
    let mut text = String::with_capacity(alloc, MOST_SEQNO_BYTES)?;
    text.push_str(text_of(&commit.text()))?;
    write!(text, "_0_{seq}")?;
    Ok(text)
}

// Adds the written form of a string. A length is a long, so it has a limit, which no memory reaches.
fn put_text(out: &mut Vec<u8>, text: &[u8]) -> Result<(), AllocError>
    ensures { OnOk result (out.new.items ≡ out.old.items ++ written (Text text.now)) }
{
    if text.len() > i64::MAX as usize {
        return Err(AllocError);
    }
    put_long_prefixed(out, text)
}

// The record of a row in a file group.
fn record_of(alloc: Global, file_id: &Name, row: &Row) -> Result<Vec<u8>, AllocError>
    ensures bytes { IfOk result (λ out. out.items ≡ record_bytes file_id.now row.now) }
    ensures known { OnOk result (HasSeqno row.now.commit row.now.seq) }
    ensures named { OnOk result (IsUtf8 file_id.now) }
{
    let seqno = seqno(alloc, row.commit, row.seq)?;
    let mut out = Vec::new(alloc);
    put_text(&mut out, &row.commit.text())?;
    put_text(&mut out, seqno.as_str().as_bytes())?;
    put_text(&mut out, row.key.as_slice())?;
    put_text(&mut out, row.partition.as_slice())?;
    put_text(&mut out, file_id.as_slice())?;
    out.extend_from_slice(row.body.as_slice())?;
    Ok(out)
}

// Adds a record. Its length has four bytes, so it has a limit, past which memory is said to be wanting.
fn put_row(alloc: Global, out: &mut Vec<u8>, file_id: &Name, row: &Row) -> Result<(), AllocError>
    ensures bytes { OnOk result (out.new.items ≡ out.old.items ++ row_bytes file_id.now row.now) }
    ensures known { OnOk result (IsWritten file_id.now row.now) }
{
    let record = record_of(alloc, file_id, row)?;
    if record.len() > u32::MAX as usize {
        return Err(AllocError);
    }
    put_u32_prefixed::<BigEndian>(out, &record)
}

// Adds records, one behind the other.
fn put_rows(
    alloc: Global,
    out: &mut Vec<u8>,
    file_id: &Name,
    rows: &[Row],
) -> Result<(), AllocError>
    ensures bytes { OnOk result (out.new.items ≡ out.old.items ++ flat_map (row_bytes file_id.now) rows.now) }
    ensures known { OnOk result (All (IsWritten file_id.now) rows.now) }
{
    for row in rows {
        put_row(alloc, out, file_id, row)?;
    }
    Ok(())
}

#[tactic(auto, unfolding(block_contents::specs::Contents::content_bytes))]
fn rows_content(alloc: Global, file_id: &Name, rows: &[Row]) -> Result<Vec<u8>, AllocError>
    requires { length rows.now < 2 ^ 32 }
    ensures bytes { IfOk result (λ out. out.items ≡ rows_bytes file_id.now rows.now) }
    ensures known { OnOk result (All (IsWritten file_id.now) rows.now) }
{
    let mut out = Vec::new(alloc);
    put_head(&mut out, rows.len() as u32)?;
    put_rows(alloc, &mut out, file_id, rows)?;
    Ok(out)
}

impl RecordLayout {
    /// The content of a data block of the instant `t` in the file group with this file id, for rows that all lie in one
    /// partition. It reads back as these rows, and can be lent. The only error is want of memory.
    pub fn data_block(
        &self,
        alloc: Global,
        t: InstantTime,
        file_id: &Name,
        rows: &[Row],
    ) -> Result<Bytes, RowError>
        requires own { All (IsOwnRow self.now.own) rows.now }
        requires counted { length rows.now < 2 ^ 32 }
        requires short_id { length file_id.now ≤ 65536 }
        ensures bytes { IfOk result (λ content. content ≡ rows_bytes file_id.now rows.now) }
        ensures reads_back { IfOk result (λ content. (partition : List ℕ) → AreRowsOf t partition rows.now →
            rows_in self.now.own (record { instant = t; partition = partition; file_id = file_id.now }) content ≡ Ok rows.now) }
        ensures can_be_lent { IfOk result (λ content. (partition : List ℕ) → AreRowsOf t partition rows.now →
            CanBeLent self.now.own (record { instant = t; partition = partition; file_id = file_id.now }) content) }
        ensures memory_alone { IfErr result (λ error. error ≡ Memory) }
    {
        let content = rows_content(alloc, file_id, rows)?;
        Ok(Bytes::from_vec(content))
    }
}
