// Rows as a JSON array.
ghost use Rattle.std.specs.Prelude.{◌≡◌, ◌++◌, All, IfOk};
ghost use Rattle.serde_json.specs.Written.{comma_if, compact_text};
ghost use Rattle.row_values.specs.RowCells.{IsOwnRow};
ghost use Rattle.script_texts.specs.Putting.{Puts};
ghost use Rattle.script_texts.specs.Texts.{row_value, rows_text};

use crate::putting::{put_bytes, put_text};
use hudi_base::Bytes;
use payload_merge::Row;
use row_codec::FlatCodec;
use std::alloc::{AllocError, Global};

// The text of a row, which is a JSON object.
fn row_text(alloc: Global, codec: &FlatCodec, row: &Row) -> Result<Bytes, AllocError>
    requires { IsOwnRow codec.now.records.own row.now }
    ensures { IfOk result (λ text. text ≡ compact_text (row_value codec.now.records.own row.now)) }
{
    match codec.json_of(alloc, row) {
        Ok(text) => Ok(text),
        Err(_) => Err(AllocError),
    }
}

// Adds the text of a row.
fn put_row(alloc: Global, out: &mut Vec<u8>, codec: &FlatCodec, row: &Row) -> Result<(), AllocError>
    requires { IsOwnRow codec.now.records.own row.now }
    ensures { Puts result out.old.items out.new.items (compact_text (row_value codec.now.records.own row.now)) }
{
    let text = row_text(alloc, codec, row)?;
    put_bytes(out, text.as_slice())
}

// What stands before a row: a comma, where there are rows before it.
fn comma_if(later: bool) -> &'static str
    ensures { result.now ≡ comma_if later }
{
    if later { "," } else { "" }
}

// Adds a row as the next one of an array.
fn put_item(
    alloc: Global,
    out: &mut Vec<u8>,
    codec: &FlatCodec,
    later: bool,
    row: &Row,
) -> Result<(), AllocError>
    requires { IsOwnRow codec.now.records.own row.now }
    ensures { Puts result out.old.items out.new.items
        (comma_if later ++ compact_text (row_value codec.now.records.own row.now)) }
{
    put_text(out, comma_if(later))?;
    put_row(alloc, out, codec, row)
}

/// Adds rows as a JSON array with no space. It makes the text of one row at a time.
pub(crate) fn put_rows(
    alloc: Global,
    out: &mut Vec<u8>,
    codec: &FlatCodec,
    rows: &[Row],
) -> Result<(), AllocError>
    requires { All (IsOwnRow codec.now.records.own) rows.now }
    ensures { Puts result out.old.items out.new.items (rows_text codec.now.records.own rows.now) }
{
    put_text(out, "[")?;
    for (place, row) in rows.iter().enumerate() {
        put_item(alloc, out, codec, place > 0, row)?;
    }
    put_text(out, "]")
}
