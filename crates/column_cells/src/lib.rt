//! Which values are the cells of a column of a base file.
//!
//! Its contract: `is_cell` tells whether a value is a cell of a column, by the column's physical type, and `is_short`
//! whether it is no longer than a cell may be. The formats of pages, of rows and of whole files cite these definitions,
//! so that each of them speaks of the same cells. It stands on `hudi_base` for values and columns.
#![tactic(auto)]

mod cells;

pub use cells::{MAX_CELL_LEN, is_cell, is_short};
