// Bodies of rows: the cells that are read from them, and where they go wrong.
use byte_fields::FieldError;
use hudi_base::Name;
use row_bodies::{ReadError, cells_at};
use row_values::{CellRef, CellType, FlatField, FlatFields};
use std::alloc::{AllocError, Global};
use std::fmt::Write;
use std::test::*;

// Bodies of a table with a field of each type, of which the third and the last may be null, in hexadecimal digits, and
// their cells with the number of bytes behind them, or how many bytes there are from the first bad item on.
const BODIES: [(&str, &str); 15] = [
    ("02610278020a010102040aff", "a x 5 -1 true 0aff +0"),
    ("026102780001000001", "a x null -1 false null +1"),
    // Numbers in more bytes than they need.
    (
        "82006182007882008a008100018200820061",
        "a x 5 -1 true 61 +0",
    ),
    // Bodies that end too soon.
    ("", "short 0"),
    ("02", "short 1"),
    ("0261", "short 0"),
    ("02610278", "short 0"),
    ("0261027802", "short 0"),
    ("0261027802808080", "short 3"),
    ("02610278020a010102040a", "short 2"),
    // A text that isn't in UTF-8, a third branch, a boolean of 2, an int of 33 bits, a negative length.
    ("02ff0278020a010102040aff", "bad 12"),
    ("02610278040a010102040aff", "bad 8"),
    ("02610278020a010202040aff", "bad 5"),
    ("02610278020a80808080200102040aff", "bad 10"),
    ("02610278020a0101020100", "bad 2"),
];

fn field(alloc: Global, cell: CellType, nullable: bool) -> Result<FlatField, AllocError> {
    Ok(FlatField {
        name: Name::from_text(alloc, "f")?,
        cell,
        nullable,
    })
}

fn fields(alloc: Global) -> Result<FlatFields, AllocError> {
    let mut fields = FlatFields::new(alloc);
    fields.push(field(alloc, CellType::Text, false)?)?;
    fields.push(field(alloc, CellType::Text, false)?)?;
    fields.push(field(alloc, CellType::Long, true)?)?;
    fields.push(field(alloc, CellType::Int, false)?)?;
    fields.push(field(alloc, CellType::Boolean, false)?)?;
    fields.push(field(alloc, CellType::Bytes, true)?)?;
    Ok(fields)
}

fn push_cell(alloc: Global, out: &mut String, cell: CellRef<'_>) -> Result<(), Fail> {
    match cell {
        CellRef::Null => out.push_str("null ")?,
        CellRef::Boolean(truth) => write!(out, "{truth} ")?,
        CellRef::Int(number) => write!(out, "{number} ")?,
        CellRef::Long(number) => write!(out, "{number} ")?,
        CellRef::Bytes(content) => {
            out.push_str(hex::encode(alloc, content)?.as_str())?;
            out.push(' ')?;
        }
        CellRef::Text(text) => write!(out, "{text} ")?,
    }
    Ok(())
}

fn push_cells(alloc: Global, out: &mut String, cells: &[CellRef<'_>]) -> Result<(), Fail> {
    for cell in cells {
        push_cell(alloc, out, *cell)?;
    }
    Ok(())
}

fn push_error(out: &mut String, error: ReadError) -> Result<(), Fail> {
    match error {
        ReadError::Memory => out.push_str("memory")?,
        ReadError::Field(FieldError::Short { left }) => write!(out, "short {left}")?,
        ReadError::Field(FieldError::Bad { left }) => write!(out, "bad {left}")?,
    }
    Ok(())
}

// What a body holds.
fn said(alloc: Global, fields: &[FlatField], body: &[u8]) -> Result<String, Fail> {
    let mut out = String::new(alloc);
    match cells_at(alloc, fields, body) {
        Ok((cells, rest)) => {
            push_cells(alloc, &mut out, &cells)?;
            let behind = rest.len();
            write!(out, "+{behind}")?;
        }
        Err(error) => push_error(&mut out, error)?,
    }
    Ok(out)
}

// The first body that holds something else.
fn body_misread(
    alloc: Global,
    fields: &[FlatField],
    rows: &[(&str, &str)],
) -> Result<Option<usize>, Fail> {
    for (row, (body, want)) in rows.iter().enumerate() {
        let body = hex::decode(alloc, *body)?;
        if said(alloc, fields, &body)?.as_str() != *want {
            return Ok(Some(row));
        }
    }
    Ok(None)
}

#[test]
fn bodies_are_read_or_bad_where_they_go_wrong(rt: HostRuntime) -> Result<(), Fail> {
    let alloc = rt.alloc();
    let fields = fields(alloc)?;
    assert_eq!(rt; body_misread(alloc, fields.as_slice(), &BODIES)?, None);
    Ok(())
}
