// The cells of a page that is written, as they come one after another.
ghost use Rattle.std.specs.Prelude.{◌≡◌, ◌<◌, ◌^◌, ◌++◌, ◌∷◌, [], if◌then◌else◌, length, IfOk, OnOk};
ghost use Rattle.parquet_pages.specs.Levels.{levels_bytes};
ghost use Rattle.parquet_pages.specs.Pages.{has_value};
ghost use Rattle.parquet_pages.specs.Parts.{part_with, parts_body};
ghost use Rattle.parquet_pages.specs.Plain.{value_bytes, truths_of, bit_bytes, bytes_for};
ghost use Rattle.column_cells.specs.Cells.{is_number};

use crate::bits::put_bits;
use crate::levels::put_levels;
use byte_fields::{put_i32, put_i64, put_u32_prefixed};
use byteorder::LittleEndian;
use hudi_base::{Column, Value};
use std::alloc::{AllocError, Global};
use std::marker::Model;

/// The physical type of booleans.
const BOOLEAN: i32 = 0;

/// The cells of a page that is written: of each no more is kept than stands in the page, so that a cell can be let go as
/// soon as it has been added.
#[derive(Drop)]
pub struct PageCells {
    // whether each cell is a value, where the column is optional
    levels: Vec<bool>,
    truths: Vec<bool>,
    // the bytes of the values that aren't booleans
    values: Vec<u8>,
}

impl Model for PageCells {
    ghost use Rattle.parquet_pages.specs.Parts.{Parts};

    ghost Value = { Parts };

    ghost view = { λ cells. record { levels = cells.levels.items; truths = cells.truths.items; values = cells.values.items } };
}

fn has_value(cell: &Value) -> bool
    ensures { result ≡ has_value cell.now }
{
    !matches!(cell, Value::Null)
}

// Adds the level of a cell, if its column is optional.
fn push_level(levels: &mut Vec<bool>, optional: bool, cell: &Value) -> Result<(), AllocError>
    ensures { OnOk result (levels.new.items ≡ (if optional then levels.old.items ++ has_value cell.now ∷ [] else levels.old.items)) }
{
    if optional {
        Ok(levels.push(has_value(cell))?)
    } else {
        Ok(())
    }
}

// Adds a boolean; another cell has none.
fn push_truth(truths: &mut Vec<bool>, cell: &Value) -> Result<(), AllocError>
    ensures { OnOk result (truths.new.items ≡ truths.old.items ++ truths_of (cell.now ∷ [])) }
{
    match cell {
        Value::Boolean(truth) => Ok(truths.push(*truth)?),
        _ => Ok(()),
    }
}

// Adds a value that isn't a boolean; a null has none.
#[tactic(auto, unfolding(byte_fields::specs::Prefixed::with_length))]
fn put_value(out: &mut Vec<u8>, value: &Value) -> Result<(), AllocError>
    requires { length (value_bytes value.now) < 2 ^ 31 }
    ensures { OnOk result (out.new.items ≡ out.old.items ++ value_bytes value.now) }
{
    match value {
        Value::Int(number) => put_i32::<LittleEndian>(out, *number),
        Value::Long(number) => put_i64::<LittleEndian>(out, *number),
        Value::Bytes(content) => put_u32_prefixed::<LittleEndian>(out, content.as_slice()),
        Value::Text(text) => put_u32_prefixed::<LittleEndian>(out, text.as_slice()),
        _ => Ok(()),
    }
}

impl PageCells {
    /// No cells, of any column.
    pub fn new(alloc: Global) -> PageCells
        ensures { result ≡ record { levels = []; truths = []; values = [] } }
    {
        PageCells {
            levels: Vec::new(alloc),
            truths: Vec::new(alloc),
            values: Vec::new(alloc),
        }
    }

    /// Adds a cell of the column to others. The only error is want of memory.
    pub fn add(&mut self, column: &Column, cell: &Value) -> Result<(), AllocError>
        requires { length (value_bytes cell.now) < 2 ^ 31 }
        ensures { OnOk result (self.new ≡ part_with column.now cell.now self.old) }
    {
        push_level(&mut self.levels, column.optional, cell)?;
        push_truth(&mut self.truths, cell)?;
        put_value(&mut self.values, cell)
    }

    // The bytes of the levels, of an optional column.
    pub(crate) fn level_bytes(&self, alloc: Global, column: &Column) -> Result<Vec<u8>, AllocError>
        requires { length (parts_body column.now self.now) < 2 ^ 31 }
        ensures { IfOk result (λ bytes. bytes.items ≡ (if column.now.optional then levels_bytes self.now.levels else [])) }
    {
        let mut bytes = Vec::new(alloc);
        if column.optional {
            put_levels(alloc, &mut bytes, &self.levels)?;
        }
        Ok(bytes)
    }

    // The bytes of the booleans of a column of them.
    pub(crate) fn truth_bytes(&self, alloc: Global, column: &Column) -> Result<Vec<u8>, AllocError>
        ensures { IfOk result (λ bytes. bytes.items
            ≡ (if is_number 0 column.now.physical then bit_bytes (bytes_for (length self.now.truths)) self.now.truths else [])) }
    {
        let mut bytes = Vec::new(alloc);
        if column.physical != BOOLEAN {
            return Ok(bytes);
        }
        put_bits(&mut bytes, &self.truths)?;
        Ok(bytes)
    }

    // The bytes of the values, given those of the booleans.
    pub(crate) fn values<'a>(&'a self, column: &Column, truths: &'a [u8]) -> &'a [u8]
        ensures { result.now ≡ (if is_number 0 column.now.physical then truths.now else self.now.values) }
    {
        if column.physical == BOOLEAN {
            truths
        } else {
            self.values.as_slice()
        }
    }
}
