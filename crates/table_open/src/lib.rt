//! Making a table in a store that has none.
//!
//! Its contract: the one operation makes the file of the table's properties, with their written text; a stop leaves no
//! file, or files that stand for the table without instants; and over an honest store the board that is given stood
//! when it was made, so all that a board promises of images holds from there on. It stands on `table_props` for the
//! text, on `table_images` for the law that this file stands for the table, and on `table_board` for boards.
#![tactic(auto)]

mod making;

pub use making::{OpenError, create_table, init};
