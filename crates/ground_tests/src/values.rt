// Bytes, names, sequences, file groups, values and counts keep what they are given.
use hudi_base::{
    Bytes, Column, Columns, FaultCount, GroupRef, InstantTime, Name, Pair, Pairs, Sequence, Target,
    Value, Values,
};
use sqlite_items::Boxed;
use std::alloc::{AllocError, Global};
use std::test::Fail;

fn copied_bytes(alloc: Global, bytes: &[u8]) -> Result<Bytes, AllocError> {
    Bytes::from_slice(alloc, bytes)?.copy(alloc)
}

fn copied_name(alloc: Global, text: &str) -> Result<Name, AllocError> {
    Name::from_text(alloc, text)?.copy(alloc)
}

// Whether the first text comes before the second.
fn are_ordered(alloc: Global, first: &str, second: &str) -> Result<bool, AllocError> {
    let first = Name::from_slice(alloc, first.as_bytes())?;
    let second = Name::from_text(alloc, second)?;
    Ok(first < second)
}

// The sequence of two numbers, from none.
fn pushed_numbers(alloc: Global) -> Result<Sequence<u8>, AllocError> {
    let mut sequence = Sequence::new(alloc);
    sequence.push(3)?;
    sequence.push(5)?;
    Ok(sequence)
}

// The last of two numbers.
fn last_of_two(sequence: &Sequence<u8>) -> Option<u8> {
    if sequence.len() != 2 {
        return None;
    }
    Some(*sequence.at(1))
}

fn target_of(alloc: Global) -> Result<Target, AllocError> {
    let group = GroupRef {
        partition: Name::from_text(alloc, "x")?,
        lo: 3,
        hi: 9,
        born: InstantTime::FIRST,
    };
    Ok(Target {
        group,
        slice: InstantTime::LAST,
    })
}

fn columns_of(alloc: Global) -> Result<Columns, AllocError> {
    let column = Column {
        name: Bytes::from_slice(alloc, b"k")?,
        physical: 6,
        optional: true,
        utf8: true,
    };
    Ok(Columns::from_vec(vec![in alloc; column]?))
}

// The kinds of values that are made without memory.
fn plain_values(alloc: Global) -> Result<Values, AllocError> {
    Ok(Values::from_vec(vec![in alloc;
        Value::Null,
        Value::Boolean(true),
        Value::Int(-1),
        Value::Long(5),
        Value::Enum(2),
    ]?))
}

// The kinds that hold bytes.
fn byte_values(alloc: Global) -> Result<Values, AllocError> {
    let mut values = Values::new(alloc);
    values.push(Value::Bytes(Bytes::from_slice(alloc, b"\xff")?))?;
    values.push(Value::Text(Name::from_text(alloc, "t")?))?;
    values.push(Value::Fixed(Bytes::from_slice(alloc, b"\x00\x01")?))?;
    Ok(values)
}

fn pairs_of(alloc: Global) -> Result<Pairs, AllocError> {
    let mut pairs = Pairs::new(alloc);
    pairs.push(Pair {
        key: Name::from_text(alloc, "a")?,
        value: Value::Null,
    })?;
    pairs.push(Pair {
        key: Name::from_text(alloc, "a")?,
        value: Value::Int(7),
    })?;
    Ok(pairs)
}

// The kinds that hold values.
fn nested_values(alloc: Global) -> Result<Values, AllocError> {
    let mut values = Values::new(alloc);
    values.push(Value::Array(plain_values(alloc)?))?;
    values.push(Value::Map(pairs_of(alloc)?))?;
    values.push(Value::Union(1, Boxed::new(alloc, Value::Null)?))?;
    values.push(Value::Record(byte_values(alloc)?))?;
    Ok(values)
}

// The name of a value's kind, and how much it holds.
fn kind_of(value: &Value) -> (&'static str, usize) {
    match value {
        Value::Null => ("null", 0),
        Value::Boolean(_) => ("boolean", 0),
        Value::Int(_) => ("int", 0),
        Value::Long(_) => ("long", 0),
        Value::Bytes(bytes) => ("bytes", bytes.as_slice().len()),
        Value::Text(text) => ("text", text.as_slice().len()),
        Value::Fixed(bytes) => ("fixed", bytes.as_slice().len()),
        Value::Enum(_) => ("enum", 0),
        Value::Array(values) => ("array", values.len()),
        Value::Map(pairs) => ("map", pairs.len()),
        Value::Union(_, value) => ("union", kind_of(value.get()).1),
        Value::Record(values) => ("record", values.len()),
    }
}

// Whether a target is that of `target_of`.
fn is_the_target(target: &Target) -> bool {
    let group = &target.group;
    target.slice == InstantTime::LAST
        && group.partition.as_str() == "x"
        && group.lo == 3
        && group.hi == 9
        && group.born == InstantTime::FIRST
}

// Whether columns are those of `columns_of`.
fn are_the_columns(columns: &[Column]) -> bool {
    match columns {
        [column] => {
            column.name.as_slice() == b"k".as_slice()
                && column.physical == 6
                && column.optional
                && column.utf8
        }
        _ => false,
    }
}

// Whether the values are of these kinds, in this order.
fn are_of(values: &Values, kinds: &[(&str, usize)]) -> bool {
    values.len() == kinds.len()
        && values
            .as_slice()
            .iter()
            .zip(kinds)
            .all(|(value, kind)| kind_of(value) == *kind)
}

#[test]
fn copies_are_equal(rt: HostRuntime) -> Result<(), Fail> {
    let alloc = rt.alloc();
    assert!(rt; copied_bytes(alloc, b"\x00\xff")?.as_slice() == b"\x00\xff".as_slice());
    assert!(rt; copied_name(alloc, "x/é")?.as_str() == "x/é");
    assert!(rt; copied_name(alloc, "x/é")?.into_bytes().as_slice() == b"x/\xc3\xa9".as_slice());
    Ok(())
}

#[test]
fn names_are_ordered_by_bytes(rt: HostRuntime) -> Result<(), Fail> {
    for (first, second) in [("x", "x0"), ("x0", "é")] {
        assert!(rt; are_ordered(rt.alloc(), first, second)?, "{first}");
    }
    Ok(())
}

#[test]
fn sequences_keep_their_order(rt: HostRuntime) -> Result<(), Fail> {
    assert!(rt; Sequence::<u8>::new(rt.alloc()).is_empty());
    assert!(rt; pushed_numbers(rt.alloc())?.as_slice() == [3, 5].as_slice());
    assert!(rt; last_of_two(&pushed_numbers(rt.alloc())?) == Some(5));
    assert!(rt; pushed_numbers(rt.alloc())?.into_vec().as_slice() == [3, 5].as_slice());
    Ok(())
}

#[test]
fn targets_are_copied(rt: HostRuntime) -> Result<(), Fail> {
    let alloc = rt.alloc();
    assert!(rt; is_the_target(&target_of(alloc)?.copy(alloc)?));
    Ok(())
}

#[test]
fn columns_are_made(rt: HostRuntime) -> Result<(), Fail> {
    assert!(rt; are_the_columns(columns_of(rt.alloc())?.as_slice()));
    Ok(())
}

#[test]
fn values_of_each_kind_are_made(rt: HostRuntime) -> Result<(), Fail> {
    let alloc = rt.alloc();
    let plain = [
        ("null", 0),
        ("boolean", 0),
        ("int", 0),
        ("long", 0),
        ("enum", 0),
    ];
    assert!(rt; are_of(&plain_values(alloc)?, &plain));
    let bytes = [("bytes", 1), ("text", 1), ("fixed", 2)];
    assert!(rt; are_of(&byte_values(alloc)?, &bytes));
    let nested = [("array", 5), ("map", 2), ("union", 0), ("record", 3)];
    assert!(rt; are_of(&nested_values(alloc)?, &nested));
    Ok(())
}

#[test]
fn faults_are_counted(rt: HostRuntime) {
    let mut faults = FaultCount::new();
    for count in 0..3 {
        assert!(rt; faults.get() == count);
        faults.raise();
    }
}
