// Pages: the cells that are read and how many bytes they take, the refusals, and what is written.
ghost use Rattle.std.specs.Prelude.{◌≡◌, [], ◌∷◌, pos, negsuc, true, false, IfOk};
ghost use Rattle.hudi_base.specs.declared.value.Value.TheVariants as value;
ghost use Rattle.parquet_pages.specs.Pages.{FitsPage};

use hudi_base::{Bytes, Column, Value, Values};
use parquet_pages::{PageError, read_page, write_page};
use sqlite_items::Items;
use std::alloc::{AllocError, Global};
use std::test::*;

// A column's physical type, whether it is optional and a text, a page in hexadecimal, and its cells with its length.
const READ: [(i32, bool, bool, &str, &str); 11] = [
    (
        1,
        true,
        false,
        "1500152415242c150615001506150600000600000002010200020101000000ffffffff",
        "1 - -1; 35",
    ),
    (
        0,
        false,
        false,
        "1500150215022c1506150015061506000005",
        "true false true; 18",
    ),
    (
        0,
        false,
        false,
        "1500150215022c15061500150615060000fdffff",
        "true false true; 18",
    ),
    (
        0,
        true,
        false,
        "1500151615162c150615001506150600000600000002010200020101",
        "true - false; 28",
    ),
    (
        6,
        true,
        true,
        "1500151c151c2c150415001506150600000400000002010200020000006162",
        "ab -; 31",
    ),
    (
        2,
        false,
        false,
        "1500151015102c15021500150615060000feffffffffffffff",
        "-2; 25",
    ),
    (
        6,
        false,
        false,
        "1500150a150a2c1502150015061506000001000000ff",
        "ff; 22",
    ),
    (
        2,
        true,
        false,
        "1500150c150c2c15061500150615060000020000000600",
        "- - -; 23",
    ),
    (
        2,
        true,
        false,
        "1500153c153c2c15061500150615060000020000000307010000000000000002000000000000000300000000000000",
        "1 2 3; 47",
    ),
    (
        1,
        false,
        false,
        "1500150015002c15001500150815060000",
        "; 17",
    ),
    (
        3,
        false,
        false,
        "1500150015002c15001500150615060000",
        "; 17",
    ),
];

// The same of pages that have no reading, and the refusal.
const REFUSED: [(i32, bool, bool, &str, &str); 20] = [
    (1, false, false, "", "bad at 0"),
    (
        1,
        false,
        false,
        "1500150815082c150215001506150600",
        "bad at 0",
    ),
    (
        1,
        false,
        false,
        "1504150815082c1502150415061506000001000000",
        "encoding 2",
    ),
    (
        1,
        true,
        false,
        "1500151415142c1502150015081506000002000000020101000000",
        "encoding 4",
    ),
    (
        1,
        true,
        false,
        "1500151415142c1502150115081506000002000000020101000000",
        "encoding -1",
    ),
    (
        1,
        false,
        false,
        "1504150815082c1502150015061506000001000000",
        "bad at 17",
    ),
    (
        1,
        false,
        false,
        "15001508150a2c150215001506150600000100000000",
        "bad at 17",
    ),
    (
        1,
        false,
        false,
        "1500150115012c15001500150615060000",
        "bad at 17",
    ),
    (
        1,
        false,
        false,
        "1500150a150a2c1502150015061506000001000000",
        "bad at 17",
    ),
    (
        1,
        false,
        false,
        "1500150815082c1501150015061506000001000000",
        "bad at 17",
    ),
    (
        1,
        false,
        false,
        "1500150a150a2c150215001506150600000100000000",
        "bad at 17",
    ),
    (
        1,
        false,
        false,
        "1500150815082c1504150015061506000001000000",
        "bad at 17",
    ),
    (
        1,
        false,
        false,
        "1500150015002c15feffffff0f1500150615060000",
        "bad at 21",
    ),
    (
        0,
        false,
        false,
        "1500150415042c150615001506150600000500",
        "bad at 17",
    ),
    (
        0,
        false,
        false,
        "1500150215022c1512150015061506000005",
        "bad at 17",
    ),
    (
        6,
        false,
        true,
        "1500150a150a2c1502150015061506000001000000ff",
        "bad at 17",
    ),
    (
        6,
        false,
        false,
        "1500150a150a2c150215001506150600000200000061",
        "bad at 17",
    ),
    (
        3,
        false,
        false,
        "1500150815082c1502150015061506000001000000",
        "bad at 17",
    ),
    (
        1,
        true,
        false,
        "1500151c151c2c150415001506150600000200000004020100000002000000",
        "bad at 17",
    ),
    (
        1,
        true,
        false,
        "1500151415142c1504150015061506000002000000020101000000",
        "bad at 17",
    ),
];

fn column(alloc: Global, physical: i32, optional: bool, utf8: bool) -> Result<Column, AllocError>
    ensures { IfOk result (λ c. (c.physical ≡ physical) × (c.optional ≡ optional) × (c.utf8 ≡ utf8)) }
{
    Ok(Column {
        name: Bytes::from_slice(alloc, b"c")?,
        physical,
        optional,
        utf8,
    })
}

fn cell_text(alloc: Global, cell: &Value) -> Result<String, Fail> {
    match cell {
        Value::Null => Ok(String::from_str(alloc, "-")?),
        Value::Boolean(truth) => Ok(format!(in alloc; "{truth}")?),
        Value::Int(number) => Ok(format!(in alloc; "{number}")?),
        Value::Long(number) => Ok(format!(in alloc; "{number}")?),
        Value::Bytes(content) => Ok(hex::encode(alloc, content.as_slice())?),
        Value::Text(text) => Ok(String::from_str(alloc, text.as_str())?),
        _ => Err("a cell")?,
    }
}

fn cells_text(alloc: Global, cells: &[Value]) -> Result<String, Fail> {
    let mut text = String::new(alloc);
    for cell in cells {
        if !text.is_empty() {
            text.push(' ')?;
        }
        text.push_str(cell_text(alloc, cell)?.as_str())?;
    }
    Ok(text)
}

// What is read, or the refusal.
fn told(alloc: Global, column: &Column, bytes: &str) -> Result<String, Fail> {
    let bytes: Vec<u8> = hex::decode(alloc, bytes)?;
    match read_page(alloc, column, &bytes) {
        Ok((cells, used)) => {
            let text = cells_text(alloc, cells.as_slice())?;
            Ok(format!(in alloc; "{text}; {used}")?)
        }
        Err(PageError::Memory) => Err("memory")?,
        Err(PageError::BadPage(offset)) => Ok(format!(in alloc; "bad at {offset}")?),
        Err(PageError::Encoding(number)) => Ok(format!(in alloc; "encoding {number}")?),
    }
}

#[test]
fn pages_are_read(rt: HostRuntime) -> Result<(), Fail> {
    for (physical, optional, utf8, bytes, want) in READ {
        let column = column(rt.alloc(), physical, optional, utf8)?;
        assert!(rt; told(rt.alloc(), &column, bytes)?.as_str() == want);
    }
    Ok(())
}

#[test]
fn pages_are_refused(rt: HostRuntime) -> Result<(), Fail> {
    for (physical, optional, utf8, bytes, want) in REFUSED {
        let column = column(rt.alloc(), physical, optional, utf8)?;
        assert!(rt; told(rt.alloc(), &column, bytes)?.as_str() == want);
    }
    Ok(())
}

fn ints(alloc: Global) -> Result<Values, AllocError>
    ensures { IfOk result (λ cells. cells ≡ value.Int (pos 1) ∷ value.Null ∷ value.Int (negsuc 0) ∷ []) }
{
    let mut cells = Items::new(alloc);
    cells.push(Value::Int(1))?;
    cells.push(Value::Null)?;
    cells.push(Value::Int(-1))?;
    Ok(cells)
}

fn truths(alloc: Global) -> Result<Values, AllocError>
    ensures { IfOk result (λ cells. cells ≡ value.Boolean true ∷ value.Boolean false ∷ value.Boolean true ∷ []) }
{
    let mut cells = Items::new(alloc);
    cells.push(Value::Boolean(true))?;
    cells.push(Value::Boolean(false))?;
    cells.push(Value::Boolean(true))?;
    Ok(cells)
}

fn written(alloc: Global, column: &Column, cells: &Values) -> Result<String, Fail>
    requires { FitsPage column.now cells.now }
{
    let page = write_page(alloc, column, cells).ok().ok_or("memory")?;
    Ok(hex::encode(alloc, page.as_slice())?)
}

fn written_ints(alloc: Global) -> Result<String, Fail> {
    let column = column(alloc, 1, true, false)?;
    let cells = ints(alloc)?;
    written(alloc, &column, &cells)
}

fn written_truths(alloc: Global) -> Result<String, Fail> {
    let column = column(alloc, 0, false, false)?;
    let cells = truths(alloc)?;
    written(alloc, &column, &cells)
}

#[test]
fn pages_are_written(rt: HostRuntime) -> Result<(), Fail> {
    assert!(rt;
        written_ints(rt.alloc())?.as_str()
            == "1500152415242c150615001506150600000600000002010200020101000000ffffffff"
    );
    assert!(rt; written_truths(rt.alloc())?.as_str() == "1500150215022c1506150015061506000005");
    Ok(())
}
