// Rows from columns, and columns from rows.
ghost use Rattle.std.specs.Prelude.{◌≡◌, suc, ◌++◌, ◌∷◌, [], map, take, length, slice_index_or, OnOk, IfOk};
ghost use Rattle.std.specs.List.{AllByRecursion};
ghost use Rattle.hudi_base.specs.declared.value.Value.TheVariants.{Null};
ghost use Rattle.base_cells.specs.Turned.{cells_at, turned};

use hudi_base::{Value, Values};
use sqlite_items::Items;
use std::alloc::{AllocError, Global};

// Moves the last cell of a list behind others. It has `last` before it.
fn move_last(last: usize, list: &mut Values, cells: &mut Vec<Value>) -> Result<(), AllocError>
    requires { length list.old ≡ suc last }
    ensures list { list.new ≡ take last list.old }
    ensures cells { OnOk result (cells.new.items ≡ cells.old.items ++ slice_index_or list.old last Null ∷ []) }
{
    if let Some(cell) = list.pop() {
        cells.push(cell)?;
    }
    Ok(())
}

/// The last cell of each list, which it takes away. Each has `last` before it. The only error is want of memory.
pub fn last_cells(alloc: Global, last: usize, lists: &mut Vec<Values>) -> Result<Values, AllocError>
    requires { AllByRecursion (λ cells. length cells ≡ suc last) lists.old.items }
    ensures cells { IfOk result (λ cells. cells ≡ cells_at lists.old.items last) }
    ensures left { OnOk result (lists.new.items ≡ map (take last) lists.old.items) }
{
    let mut cells = Vec::with_capacity(alloc, lists.len())?;
    for list in lists.iter_mut() {
        move_last(last, list, &mut cells)?;
    }
    Ok(Items::from_vec(cells))
}

/// Rows of columns that have n cells each, or columns of rows that have n cells each. The only error is want of memory.
pub(crate) fn turned(alloc: Global, n: usize, lists: Vec<Values>) -> Result<Vec<Values>, AllocError>
    requires { AllByRecursion (λ cells. length cells ≡ n) lists.items }
    ensures { IfOk result (λ turned_lists. turned_lists.items ≡ turned n lists.items) }
{
    let mut lists = lists;
    let mut backwards = Vec::new(alloc);
    let mut left = n;
    while left > 0 {
        left -= 1;
        let cells = last_cells(alloc, left, &mut lists)?;
        backwards.push(cells)?;
    }
    backwards.reverse();
    Ok(backwards)
}
