// What many writes leave.
use crate::rows::{SEQ, body_of, del, put};
use hudi_base::InstantTime;
use payload_merge::{MergeError, RowMap, RowRef, Rows, WriteRef, fold_writes};
use std::alloc::Global;
use std::test::Fail;

// Partition, key, rank and body of rows as they are written.
const PUTS: [(&str, &[u8], i64, u8); 8] = [
    ("y", b"a", 1, 1),
    ("x", b"b", 1, 2),
    ("x", b"\xff", 1, 3),
    ("x", b"B", 1, 4),
    ("x", b"a", 1, 5),
    ("x", b"b", 0, 6),
    ("y", b"a", 1, 7),
    ("x", b"c", 9, 8),
];

// The bodies of the rows that are left: in "x" those of "B", "a", "b" and 255, and in "y" that of "a".
const BODIES_LEFT: [u8; 5] = [4, 5, 2, 3, 7];

fn map_of_puts(alloc: Global) -> Result<RowMap, MergeError> {
    let mut map = RowMap::new(alloc);
    for (partition, key, rank, body) in PUTS {
        let write = put(alloc, partition, key, rank, body)?;
        map.fold_in(write)?;
    }
    Ok(map)
}

// How many rows are left after a delete of "c" in "x" of this rank.
fn len_after_del(alloc: Global, rank: i64) -> Result<usize, MergeError> {
    let mut map = map_of_puts(alloc)?;
    map.fold_in(del(alloc, "x", b"c", rank)?)?;
    Ok(map.len())
}

fn rows_left(alloc: Global) -> Result<Rows, MergeError> {
    let mut map = map_of_puts(alloc)?;
    map.fold_in(del(alloc, "x", b"c", 9)?)?;
    map.rows(alloc)
}

fn bodies(alloc: Global, rows: &Rows) -> Result<Vec<u8>, MergeError> {
    let mut bodies = Vec::new(alloc);
    for row in rows.as_slice() {
        bodies.push(body_of(row))?;
    }
    Ok(bodies)
}

#[test]
fn folds_rows_in_the_order_of_their_keys(rt: HostRuntime) -> Result<(), Fail> {
    assert!(rt; RowMap::new(rt.alloc()).is_empty());
    assert_eq!(rt; len_after_del(rt.alloc(), 8)?, 6);
    assert_eq!(rt; len_after_del(rt.alloc(), 9)?, 5);
    let rows = rows_left(rt.alloc())?;
    assert_eq!(rt;
        bodies(rt.alloc(), &rows)?.as_slice(),
        BODIES_LEFT.as_slice()
    );
    Ok(())
}

// Key, rank and body of writes. One without a body is a delete.
const LENT: [(&[u8], i64, &[u8]); 16] = [
    (b"12345678b", 1, b"0"),
    (b"a\0", 1, b"1"),
    (b"12345678a", 1, b"2"),
    (b"a", 1, b"3"),
    (b"a\0", 0, b"4"),
    (b"a", 1, b"5"),
    (b"", i64::MAX, b"6"),
    (b"12345678a", 2, b"7"),
    (b"", i64::MIN, b"8"),
    (b"d", 2, b"9"),
    (b"d", 2, b""),
    (b"e", 9, b""),
    (b"e", 1, b"12"),
    (b"f", 0, b""),
    (b"a", 0, b""),
    (b"", 0, b""),
];

// The places of those that are left, in the order of their keys: none, two that begin with the same eight bytes, "a",
// "a" with a zero behind it, and "e", whose delete of a greater rank came first.
const PLACES_LEFT: [usize; 6] = [6, 7, 0, 5, 1, 12];

fn lent_write(key: &'static [u8], rank: i64, body: &'static [u8]) -> WriteRef<'static> {
    if body.is_empty() {
        return WriteRef::Del { key, rank };
    }
    WriteRef::Put(RowRef {
        key,
        rank,
        commit: InstantTime::FIRST,
        seq: SEQ,
        body,
    })
}

fn lent(alloc: Global) -> Result<Vec<WriteRef<'static>>, MergeError> {
    let mut writes = Vec::new(alloc);
    for (key, rank, body) in LENT {
        if writes.push(lent_write(key, rank, body)).is_err() {
            return Err(MergeError::Memory);
        }
    }
    Ok(writes)
}

// The place of a row among the writes; one past the last for another row.
fn place_of(row: &RowRef<'_>) -> usize {
    for place in 0..LENT.len() {
        let (key, rank, body) = LENT[place];
        if row.key == key && row.rank == rank && row.seq == SEQ && row.body == body {
            return place;
        }
    }
    LENT.len()
}

fn places_left(alloc: Global) -> Result<Vec<usize>, MergeError> {
    let writes = lent(alloc)?;
    let rows = fold_writes(alloc, &writes)?;
    let mut places = Vec::new(alloc);
    for row in &rows {
        places.push(place_of(row))?;
    }
    Ok(places)
}

#[test]
fn folds_lent_writes(rt: HostRuntime) -> Result<(), Fail> {
    assert_eq!(rt; places_left(rt.alloc())?.as_slice(), PLACES_LEFT.as_slice());
    Ok(())
}
