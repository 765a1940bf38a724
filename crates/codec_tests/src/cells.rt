// Cells of base files: which rows they stand for, and which of them are refused.
use crate::table::{ROW, codec, instant, row_of};
use hudi_base::{Bytes, Name, Value, Values};
use payload_merge::{RowCodec, RowError};
use row_codec::FlatCodec;
use std::alloc::{AllocError, Global};
use std::test::*;

#[derive(Clone, Copy)]
enum Cell {
    Null,
    Boolean(bool),
    Int(i32),
    Long(i64),
    Text(&'static str),
    // Bytes, and a text, of so many bytes.
    Bytes(usize),
    Letters(usize),
}

// The cells of a row in the partition `x` and the file group `f`.
const GOOD: [Cell; 11] = [
    Cell::Text("20240101000000001"),
    Cell::Text("20240101000000001_0_0"),
    Cell::Text("a"),
    Cell::Text("x"),
    Cell::Text("f"),
    Cell::Text("a"),
    Cell::Text("x"),
    Cell::Long(5),
    Cell::Int(-1),
    Cell::Boolean(true),
    Cell::Bytes(2),
];

// The places of cells that are others, and the place of the one that is refused then, if one is.
const OTHERS: &[(&[(usize, Cell)], Option<usize>)] = &[
    // Nothing is asked of the file. The last place in a batch, and the ends of the cells' lengths.
    (&[], None),
    (&[(4, Cell::Text(""))], None),
    (&[(1, Cell::Text("20240101000000001_0_4294967295"))], None),
    (&[(10, Cell::Null)], None),
    (&[(10, Cell::Bytes(65_536))], None),
    (&[(4, Cell::Letters(65_536))], None),
    // A cell that isn't of its column, or is too long.
    (&[(0, Cell::Null)], Some(0)),
    (&[(1, Cell::Long(0))], Some(1)),
    (&[(2, Cell::Bytes(1))], Some(2)),
    (&[(3, Cell::Null)], Some(3)),
    (&[(4, Cell::Null)], Some(4)),
    (&[(5, Cell::Bytes(1))], Some(5)),
    (&[(6, Cell::Boolean(true))], Some(6)),
    (&[(7, Cell::Int(5))], Some(7)),
    (&[(8, Cell::Long(5))], Some(8)),
    (&[(9, Cell::Null)], Some(9)),
    (&[(10, Cell::Text("a"))], Some(10)),
    (&[(4, Cell::Letters(65_537))], Some(4)),
    (&[(10, Cell::Bytes(65_537))], Some(10)),
    (&[(11, Cell::Null)], Some(11)),
    // A cell that is of its column, and doesn't agree.
    (&[(0, Cell::Text("20240101000000002"))], Some(1)),
    (&[(0, Cell::Text("2024010100000000"))], Some(0)),
    (&[(0, Cell::Text("20241301000000001"))], Some(0)),
    (
        &[(1, Cell::Text("20240101000000001_0_4294967296"))],
        Some(1),
    ),
    (&[(1, Cell::Text("20240101000000001_1_0"))], Some(1)),
    (&[(1, Cell::Text("20240101000000001_0_00"))], Some(1)),
    (&[(1, Cell::Text("20240101000000001_0_"))], Some(1)),
    (&[(2, Cell::Text("b"))], Some(2)),
    (&[(5, Cell::Text("b"))], Some(2)),
    (&[(3, Cell::Text("y"))], Some(3)),
    (&[(6, Cell::Text("y"))], Some(3)),
    (&[(3, Cell::Text("y")), (6, Cell::Text("y"))], Some(3)),
    (&[(7, Cell::Null)], Some(7)),
    // Several: first one that isn't of its column, and then in the order of the commit, the seqno, the record key, the
    // partition and the ordering field.
    (&[(0, Cell::Text("")), (10, Cell::Text("a"))], Some(10)),
    (&[(7, Cell::Null), (9, Cell::Null)], Some(9)),
    (
        &[(0, Cell::Text("")), (1, Cell::Text("")), (7, Cell::Null)],
        Some(0),
    ),
    (
        &[(1, Cell::Text("")), (2, Cell::Text("")), (7, Cell::Null)],
        Some(1),
    ),
    (
        &[(5, Cell::Text("b")), (3, Cell::Text("y")), (7, Cell::Null)],
        Some(2),
    ),
    (&[(6, Cell::Text("y")), (7, Cell::Null)], Some(3)),
];

// How many of the good cells are there.
const MISSING: [usize; 3] = [0, 5, 10];

fn letters(alloc: Global, len: usize) -> Result<String, AllocError> {
    let mut out = String::new(alloc);
    for _ in 0..len {
        out.push('k')?;
    }
    Ok(out)
}

fn value_of(alloc: Global, cell: Cell) -> Result<Value, AllocError> {
    Ok(match cell {
        Cell::Null => Value::Null,
        Cell::Boolean(truth) => Value::Boolean(truth),
        Cell::Int(number) => Value::Int(number),
        Cell::Long(number) => Value::Long(number),
        Cell::Text(text) => Value::Text(Name::from_text(alloc, text)?),
        Cell::Bytes(len) => Value::Bytes(Bytes::from_vec(vec![in alloc; 0u8; len]?)),
        Cell::Letters(len) => Value::Text(Name::from_text(alloc, letters(alloc, len)?.as_str())?),
    })
}

// The cell at a place, if there is one.
fn cell_at(others: &[(usize, Cell)], place: usize) -> Option<Cell> {
    match others.iter().find(|(other, _)| *other == place) {
        Some((_, cell)) => Some(*cell),
        None => GOOD.get(place).copied(),
    }
}

// So many of the good cells, or others in their places.
fn cells_of(alloc: Global, count: usize, others: &[(usize, Cell)]) -> Result<Values, AllocError> {
    let mut cells = Values::new(alloc);
    for place in 0..count {
        if let Some(cell) = cell_at(others, place) {
            cells.push(value_of(alloc, cell)?)?;
        }
    }
    Ok(cells)
}

// The place of the cell that is refused.
fn refused(alloc: Global, codec: &FlatCodec, cells: &Values) -> Result<Option<usize>, Fail> {
    let partition = Name::from_text(alloc, "x")?;
    match codec.row(alloc, &partition, cells) {
        Ok(_) => Ok(None),
        Err(RowError::BadContent(place)) => Ok(Some(place)),
        Err(_) => Err("another error")?,
    }
}

// The first cells of which something else is said.
fn misread(
    alloc: Global,
    codec: &FlatCodec,
    rows: &[(&[(usize, Cell)], Option<usize>)],
) -> Result<Option<usize>, Fail> {
    for (row, (others, want)) in rows.iter().enumerate() {
        let cells = cells_of(alloc, GOOD.len() + 1, others)?;
        if refused(alloc, codec, &cells)? != *want {
            return Ok(Some(row));
        }
    }
    Ok(None)
}

#[test]
fn cells_stand_for_a_row_or_are_refused_by_the_first_rule(rt: HostRuntime) -> Result<(), Fail> {
    let alloc = rt.alloc();
    let codec = codec(alloc)?;
    assert_eq!(rt; misread(alloc, &codec, OTHERS)?, None);
    for count in MISSING {
        let cells = cells_of(alloc, count, &[])?;
        assert_eq!(rt; refused(alloc, &codec, &cells)?, Some(count));
    }
    Ok(())
}
