// Contents of data blocks: the properties of a table, a zero byte, and then rows as lines of JSON or contents.
ghost use Rattle.std.specs.Prelude.{◌≡◌, ◌≤◌, true, length, IfOk};
ghost use Rattle.row_values.specs.Layouts.{has_typed_places};
ghost use Rattle.row_values.specs.RowCells.{IsOwnRow};

use crate::{blocks, folds};
use anyhow::{Result, bail};
use hudi_base::{Bytes, InstantTime, Name};
use payload_merge::{Row, RowCodec, RowError};
use row_codec::FlatCodec;
use row_values::told_properties_have_typed_places;
use serde_json::Value;
use std::alloc::Global;
use table_forms::split_once;
use table_props::{Props, parse_props};

const FILE: &str = "f";

/// What a command makes of the input. The blocks are those of the instant 20240101000000001 in the file group `f`. `write`
/// gives for each row, in hexadecimal digits, the content of a block that has it alone, where a row's place is that of
/// its line. Contents that are read stand behind their lengths: `show` gives a line of JSON for each row, and `fold` how
/// many rows are left of them, and the sum of their ranks.
pub fn output_of(alloc: Global, command: &str, input: &[u8]) -> Result<Bytes> {
    let Some((properties, rest)) = split_once(0, input) else {
        bail!("no properties");
    };
    let codec = codec(alloc, properties)?;
    match command {
        "fold" => folds::told_of(alloc, &codec, rest),
        "show" => blocks::lines_of(alloc, &codec, rest),
        "write" => written(alloc, &codec, rest),
        _ => bail!("no such command"),
    }
}

fn codec_of(alloc: Global, props: &Props) -> Result<FlatCodec, RowError>
    requires { has_typed_places props.now ≡ true }
{
    FlatCodec::new(alloc, props)
}

fn codec(alloc: Global, text: &[u8]) -> Result<FlatCodec> {
    told_properties_have_typed_places();
    let Ok(props) = parse_props(alloc, text) else {
        bail!("bad properties");
    };
    match codec_of(alloc, &props) {
        Ok(codec) => Ok(codec),
        Err(_) => bail!("no flat schema"),
    }
}

// The row that JSON says, at this place.
fn row_of(alloc: Global, codec: &FlatCodec, json: &Value, place: u32) -> Result<Row>
    ensures { IfOk result (λ row. IsOwnRow codec.now.records.own row) }
{
    let Some(time) = InstantTime::from_text(b"20240101000000001") else {
        bail!("no time");
    };
    let Ok(value) = codec.value_of_json(alloc, json) else {
        bail!("another row");
    };
    match codec.row_of(alloc, &value, time, place) {
        Ok(row) => Ok(row),
        Err(_) => bail!("a row that is refused"),
    }
}

fn content_of(alloc: Global, codec: &FlatCodec, file: &Name, row: &Row) -> Result<Bytes, RowError>
    requires own { IsOwnRow codec.now.records.own row.now }
    requires short_id { length file.now ≤ 65536 }
{
    codec.data_block(alloc, row.commit, file, std::slice::from_ref(row))
}

fn line_of(alloc: Global, codec: &FlatCodec, text: &str, place: u32) -> Result<String> {
    let json = Value::from_str(alloc, text)?;
    let row = row_of(alloc, codec, &json, place)?;
    let file = Name::from_text(alloc, FILE)?;
    match content_of(alloc, codec, &file, &row) {
        Ok(content) => Ok(hex::encode(alloc, content.as_slice())?),
        Err(_) => bail!("out of memory"),
    }
}

fn written(alloc: Global, codec: &FlatCodec, lines: &[u8]) -> Result<Bytes> {
    let mut out = Vec::new(alloc);
    let mut place = 0u32;
    for line in lines.split(|byte| *byte == b'\n') {
        if line.is_empty() {
            continue;
        }
        let text = line_of(alloc, codec, std::str::from_utf8(line)?, place)?;
        out.extend_from_slice(text.as_bytes())?;
        out.push(b'\n')?;
        place = place.saturating_add(1);
    }
    Ok(Bytes::from_vec(out))
}
