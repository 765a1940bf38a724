// Rows as a JSON array.
ghost use Rattle.std.specs.Prelude.{◌≡◌, ◌++◌, ◌∷◌, [], codes, map, IfOk, OnOk, string_bytes};
ghost use Rattle.json.specs.Token.{key, number, string};
ghost use Rattle.json.specs.Tree.{json_tokens};
ghost use Rattle.serde_json.specs.Data.{array};
ghost use Rattle.serde_json.specs.Find.{of_integer};
ghost use Rattle.serde_json.specs.View.{items_of};
ghost use Rattle.serde_json.specs.Written.{number_text, outline};
ghost use Rattle.job_script.specs.Putting.{Puts};
ghost use Rattle.job_script.specs.Texts.{row_data, rows_text, seqno, shown};

use crate::putting::text_of;
use json::Writer;
use payload_merge::Row;
use std::alloc::{AllocError, Global};
use std::fmt::Write;

// Seventeen digits, three bytes between, and a u32.
const MOST_SEQNO_BYTES: usize = 30;

/// Adds rows as a JSON array with no space.
#[tactic(auto, using(crate::proofs::RowTokens::rows_steps))]
pub(crate) fn put_rows(alloc: Global, out: &mut Vec<u8>, rows: &[Row]) -> Result<(), AllocError>
    ensures { Puts result out.old.items out.new.items (rows_text rows.now) }
{
    let mut writer = Writer::new(std::mem::replace(out, Vec::new(alloc)));
    let written = write_rows(alloc, &mut writer, rows);
    *out = writer.into_inner();
    written
}

// Writes rows as a JSON array.
#[tactic(auto, using(crate::proofs::RowTokens::rows_steps))]
fn write_rows(alloc: Global, out: &mut Writer, rows: &[Row]) -> Result<(), AllocError>
    ensures tokens { OnOk result
        (out.new.tokens ≡ out.old.tokens ++ json_tokens (outline (array (items_of (map row_data rows.now))))) }
    ensures before { out.new.before ≡ out.old.before }
{
    out.begin_array()?;
    for row in rows {
        write_row(alloc, out, row)?;
    }
    out.end_array()
}

// Writes a row as a JSON object.
fn write_row(alloc: Global, out: &mut Writer, row: &Row) -> Result<(), AllocError>
    ensures tokens { OnOk result (out.new.tokens ≡ out.old.tokens ++ json_tokens (outline (row_data row.now))) }
    ensures before { out.new.before ≡ out.old.before }
{
    let seqno = seqno(alloc, row)?;
    out.begin_object()?;
    write_text(out, "_hoodie_commit_seqno", seqno.as_str())?;
    write_text(out, "_hoodie_commit_time", text_of(&row.commit.text()))?;
    write_text(out, "body", shown(row.body.as_slice()))?;
    write_text(out, "key", shown(row.key.as_slice()))?;
    write_rank(out, row)?;
    out.end_object()
}

// Writes a member that is a text.
fn write_text(out: &mut Writer, name: &str, text: &str) -> Result<(), AllocError>
    ensures tokens { OnOk result (out.new.tokens ≡ out.old.tokens ++ key name.now ∷ string text.now ∷ []) }
    ensures before { out.new.before ≡ out.old.before }
{
    out.key(name)?;
    out.string(text)
}

// Writes the member that is the rank of a row.
fn write_rank(out: &mut Writer, row: &Row) -> Result<(), AllocError>
    ensures tokens { OnOk result
        (out.new.tokens ≡ out.old.tokens ++ key (codes "rank") ∷ number (number_text (of_integer row.now.rank)) ∷ []) }
    ensures before { out.new.before ≡ out.old.before }
{
    let rank = row.rank;
    out.key("rank")?;
    out.i64(rank)
}

// Where a row was written.
fn seqno(alloc: Global, row: &Row) -> Result<String, AllocError>
    ensures { IfOk result (λ text. string_bytes text ≡ seqno row.now) }
{
    let mut text = String::with_capacity(alloc, MOST_SEQNO_BYTES)?;
    text.push_str(text_of(&row.commit.text()))?;
    let seq = row.seq;
    write!(text, "_0_{seq}")?;
    Ok(text)
}

// The bytes as a text, or an empty one where they are none.
#[tactic(auto, using(crate::proofs::RowTokens::shown_bytes))]
fn shown(bytes: &[u8]) -> &str
    ensures { result.now ≡ shown bytes.now }
{
    match std::str::from_utf8(bytes) {
        Ok(text) => text,
        Err(_) => "",
    }
}
