//! Base files of two columns, as a table of cases.
//!
//! Each line of the standard input is a file in hex. The program prints its rows of cells, or why it is no file of the
//! columns and at which place; for `written` it prints the file of two rows. The columns are `k`, a required text, and `v`, an optional number of 32 bits.
#![tactic(auto)]

mod written;

ghost use Rattle.std.specs.Prelude.{◌≡◌, true, not, IfOk};
ghost use Rattle.std.specs.List.{list_all};
ghost use Rattle.base_cells.specs.Columns.{is_group_of};
ghost use Rattle.base_cases.specs.Sample.{the_columns};

use crate::written::written_file;
use anyhow::{Result, bail};
use base_cells::{BaseCause, BaseError, read_footer, read_group};
use hudi_base::{Bytes, Column, Columns, Value, Values};
use parquet_meta::RowGroup;
use std::alloc::Global;
use std::io::{BufRead, BufReader};

fn main(rt: HostRuntime) -> Result<()> {
    let columns = columns(rt.alloc())?;
    for line in BufReader::new(rt.alloc(), rt.reader())?.lines(rt.alloc()) {
        let line = line?;
        let answer = answer(rt.alloc(), &columns, line.as_str())?;
        println!(rt; "{answer}")?;
    }
    Ok(())
}

fn column(alloc: Global, name: &[u8], physical: i32, optional: bool) -> Result<Column>
    ensures { IfOk result (λ column. column ≡ record { name = name.now; physical = physical; optional = optional; utf8 = not optional }) }
{
    Ok(Column {
        name: Bytes::from_slice(alloc, name)?,
        physical,
        optional,
        utf8: !optional,
    })
}

fn columns(alloc: Global) -> Result<Columns>
    ensures { IfOk result (λ columns. columns ≡ the_columns) }
{
    let mut columns = Columns::new(alloc);
    columns.push(column(alloc, b"k", 6, false)?)?;
    columns.push(column(alloc, b"v", 1, true)?)?;
    Ok(columns)
}

// What is printed for a line.
fn answer(alloc: Global, columns: &Columns, line: &str) -> Result<String>
    requires { columns.now ≡ the_columns }
{
    if line == "written" {
        return written_file(alloc, columns);
    }
    let bytes: Vec<u8> = hex::decode(alloc, line)?;
    file_text(alloc, columns, &bytes)
}

// What is printed for a file.
fn file_text(alloc: Global, columns: &Columns, bytes: &[u8]) -> Result<String> {
    match read_footer(alloc, columns, bytes) {
        Ok((meta, _)) => groups_text(alloc, columns, bytes, meta.groups.as_slice()),
        Err(error) => refusal(alloc, error),
    }
}

// The rows of row groups.
fn groups_text(
    alloc: Global,
    columns: &Columns,
    bytes: &[u8],
    groups: &[RowGroup],
) -> Result<String>
    requires { list_all (is_group_of columns.now) groups.now ≡ true }
{
    let mut text = String::new(alloc);
    for group in groups {
        match read_group(alloc, columns, bytes, group) {
            Ok(rows) => push_rows(alloc, rows.as_slice(), &mut text)?,
            Err(error) => return refusal(alloc, error),
        }
    }
    Ok(text)
}

fn push_rows(alloc: Global, rows: &[Values], text: &mut String) -> Result<()> {
    for row in rows {
        if !text.is_empty() {
            text.push_str("; ")?;
        }
        push_cells(alloc, row.as_slice(), text)?;
    }
    Ok(())
}

fn push_cells(alloc: Global, cells: &[Value], text: &mut String) -> Result<()> {
    for (index, cell) in cells.iter().enumerate() {
        if index > 0 {
            text.push(' ')?;
        }
        match cell {
            Value::Null => text.push('-')?,
            Value::Int(number) => text.push_str(format!(in alloc; "{number}")?.as_str())?,
            Value::Text(name) => text.push_str(name.as_str())?,
            _ => bail!("no cell of these columns"),
        }
    }
    Ok(())
}

fn refusal(alloc: Global, error: BaseError) -> Result<String> {
    match error {
        BaseError::Memory => bail!("out of memory"),
        BaseError::BadBase(cause, at) => {
            let cause = cause_text(alloc, cause)?;
            Ok(format!(in alloc; "{cause} at {at}")?)
        }
    }
}

fn cause_text(alloc: Global, cause: BaseCause) -> Result<String> {
    Ok(match cause {
        BaseCause::Magic => format!(in alloc; "magic")?,
        BaseCause::Footer => format!(in alloc; "footer")?,
        BaseCause::Meta => format!(in alloc; "meta")?,
        BaseCause::Unsupported(index) => format!(in alloc; "unsupported {index}")?,
        BaseCause::Columns => format!(in alloc; "columns")?,
        BaseCause::Compressed(codec) => format!(in alloc; "compressed {codec}")?,
        BaseCause::Page => format!(in alloc; "page")?,
        BaseCause::Encoding(encoding) => format!(in alloc; "encoding {encoding}")?,
        BaseCause::Row => format!(in alloc; "row")?,
    })
}
