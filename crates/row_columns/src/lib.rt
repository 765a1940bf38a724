//! The rows of a table in the columns of base files.
//!
//! Its contract: the cells that `base_cells` gives of a row stand for it, and any cells stand for exactly one row of a
//! partition or are refused at the place of the first bad one. It stands on `row_records` for what the cells of a record
//! tell of a row, and on `column_cells` for the cells of columns.
#![tactic(auto)]

mod cells;
mod columns;
mod own;
mod rows;

pub use cells::base_cells;
pub use columns::columns_of;
pub use own::own_cells;
pub use rows::base_row;
