// A file of two rows, as it is written.
ghost use Rattle.std.specs.Prelude.{◌≡◌, ◌∷◌, [], IfOk};
ghost use Rattle.hudi_base.specs.declared.value.Value.TheVariants.{Text};
ghost use Rattle.base_writer.specs.GroupParts.{group_parts};
ghost use Rattle.base_cases.specs.Sample.{the_columns, the_rows};

use anyhow::Result;
use base_writer::{GroupPages, begin, finish};
use hudi_base::{Columns, Name, Value, Values};
use parquet_meta::RowGroups;
use sqlite_items::Items;
use std::alloc::{AllocError, Global};

// How many rows the file has.
const ROWS: usize = 2;

fn row(alloc: Global, text: &str, number: Value) -> Result<Values, AllocError>
    ensures { IfOk result (λ cells. cells ≡ Text text.now ∷ number ∷ []) }
{
    let mut cells = Items::new(alloc);
    let text = Name::from_text(alloc, text)?;
    cells.push(Value::Text(text))?;
    cells.push(number)?;
    Ok(cells)
}

// The pages of the rows.
fn pages(alloc: Global, columns: &Columns) -> Result<GroupPages, AllocError>
    requires { columns.now ≡ the_columns }
    ensures { IfOk result (λ pages. pages ≡ group_parts the_columns the_rows) }
{
    let mut pages = GroupPages::new(alloc, columns)?;
    let first = row(alloc, "a", Value::Int(1))?;
    pages.add(columns, &first)?;
    let second = row(alloc, "b", Value::Null)?;
    pages.add(columns, &second)?;
    Ok(pages)
}

/// The file's bytes in hex.
pub(crate) fn written_file(alloc: Global, columns: &Columns) -> Result<String>
    requires { columns.now ≡ the_columns }
{
    let pages = pages(alloc, columns)?;
    let mut bytes = begin(alloc)?;
    let group = pages.put(alloc, columns, ROWS, &mut bytes)?;
    let mut groups = RowGroups::new(alloc);
    groups.push(group)?;
    let file = finish(alloc, columns, ROWS, groups, bytes)?;
    Ok(hex::encode(alloc, file.as_slice())?)
}
