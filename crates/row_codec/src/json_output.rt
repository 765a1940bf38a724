// Rows as JSON.
ghost use Rattle.std.specs.Prelude.{◌≡◌, List, IfErr, IfOk, IsUtf8, OnOk};
ghost use Rattle.hudi_base.specs.declared.value.Value.{Value};
ghost use Rattle.serde_json.specs.Data.{string};
ghost use Rattle.payload_merge.specs.declared.row_error.RowError.TheVariants.{Memory};
ghost use Rattle.serde_json.specs.View.{members_view, view};
ghost use Rattle.row_values.specs.Cells.{AreCells, cell_view, cells_view};
ghost use Rattle.row_values.specs.RowCells.{AreCellsOf, IsOwnRow, seqno_text};
ghost use Rattle.hudi_base.specs.InstantTime.{time_text};
ghost use Rattle.row_codec.specs.JsonOutput.{cell_data, members_with, row_data, row_text};

use crate::flat_codec::FlatCodec;
use hudi_base::Bytes;
use payload_merge::{Row, RowError};
use row_columns::own_cells;
use row_records::seqno;
use row_values::{CellRef, FlatField, RowLayout};
use serde_json::{Map, Number, Value as Json, put};
use std::alloc::{AllocError, Global};

fn cell_json(alloc: Global, cell: CellRef<'_>) -> Result<Json, AllocError>
    ensures { IfOk result (λ json. view json ≡ cell_data (cell_view cell.entry)) }
{
    Ok(match cell {
        CellRef::Null => Json::Null,
        CellRef::Boolean(truth) => Json::Bool(truth),
        CellRef::Int(number) => Json::Number(Number::from(number)),
        CellRef::Long(number) => Json::Number(Number::from(number)),
        CellRef::Bytes(content) => Json::String(hex::encode(alloc, content)?),
        CellRef::Text(text) => Json::String(String::from_str(alloc, text)?),
    })
}

// Adds the members of fields.
fn put_cells(
    alloc: Global,
    members: &mut Map<String, Json>,
    fields: &[FlatField],
    cells: &[CellRef<'_>],
) -> Result<(), AllocError>
    requires { AreCells fields.now (cells_view cells.now) }
    ensures { OnOk result (members_view members.new.entries ≡ members_with fields.now (cells_view cells.now) (members_view members.old.entries)) }
{
    for i in 0..fields.len() {
        let json = cell_json(alloc, cells[i])?;
        put(members, alloc, fields[i].name.as_str(), json)?;
    }
    Ok(())
}

fn text_json(alloc: Global, text: &[u8]) -> Result<Json, AllocError>
    requires { IsUtf8 text.now }
    ensures { IfOk result (λ json. view json ≡ string text.now) }
{
    match std::str::from_utf8(text) {
        Ok(text) => Ok(Json::String(String::from_str(alloc, text)?)),
        Err(_) => unreachable!(),
    }
}

fn seqno_json(alloc: Global, row: &Row) -> Result<Json, AllocError>
    ensures { IfOk result (λ json. view json ≡ string (seqno_text row.now.commit row.now.seq)) }
{
    Ok(Json::String(seqno(alloc, row.commit, row.seq)?))
}

fn time_json(alloc: Global, row: &Row) -> Result<Json, AllocError>
    ensures { IfOk result (λ json. view json ≡ string (time_text row.now.commit)) }
{
    text_json(alloc, &row.commit.text())
}

// The JSON of a row with these cells.
fn row_json(
    alloc: Global,
    layout: &RowLayout,
    row: &Row,
    cells: &[CellRef<'_>],
) -> Result<Json, AllocError>
    requires { AreCells layout.now.fields (cells_view cells.now) }
    ensures { IfOk result (λ json. view json ≡ row_data layout.now row.now (cells_view cells.now)) }
{
    let mut members = Map::new(alloc);
    let seqno = seqno_json(alloc, row)?;
    put(&mut members, alloc, "_hoodie_commit_seqno", seqno)?;
    let time = time_json(alloc, row)?;
    put(&mut members, alloc, "_hoodie_commit_time", time)?;
    put_cells(alloc, &mut members, layout.fields.as_slice(), cells)?;
    Ok(Json::Object(members))
}

impl FlatCodec {
    /// A row of the table as compact JSON: an object with `_hoodie_commit_seqno`, `_hoodie_commit_time` and the table's
    /// fields, its members in byte order, null written as null and bytes as pairs of hexadecimal digits. The only error
    /// is want of memory.
    pub fn json_of(&self, alloc: Global, row: &Row) -> Result<Bytes, RowError>
        requires { IsOwnRow self.now.records.own row.now }
        ensures text { IfOk result (λ text. (cells : List Value) → AreCellsOf self.now.records.own row.now cells → text ≡ row_text self.now.records.own row.now cells) }
        ensures memory_alone { IfErr result (λ error. error ≡ Memory) }
    {
        let cells = own_cells(alloc, &self.records.own, row)?;
        let json = row_json(alloc, &self.records.own, row, &cells)?;
        Ok(Bytes::from_vec(json.to_vec(alloc)?))
    }
}
