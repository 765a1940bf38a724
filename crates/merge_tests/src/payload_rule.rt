// What one write makes of the row that its key has.
use crate::rows::{body_left, del, put, row};
use payload_merge::apply;
use std::alloc::{AllocError, Global};
use std::test::Fail;

const LEAST: i64 = i64::MIN;

const GREATEST: i64 = i64::MAX;

fn put_over(alloc: Global, present: i64, rank: i64) -> Result<u8, AllocError> {
    let present = row(alloc, "x", b"a", present, 1)?;
    let write = put(alloc, "x", b"a", rank, 2)?;
    Ok(body_left(&apply(Some(present), write)))
}

fn del_over(alloc: Global, present: i64, rank: i64) -> Result<u8, AllocError> {
    let present = row(alloc, "x", b"a", present, 1)?;
    let write = del(alloc, "x", b"a", rank)?;
    Ok(body_left(&apply(Some(present), write)))
}

fn put_where_none(alloc: Global) -> Result<u8, AllocError> {
    let write = put(alloc, "x", b"a", LEAST, 2)?;
    Ok(body_left(&apply(None, write)))
}

fn del_where_none(alloc: Global) -> Result<u8, AllocError> {
    let write = del(alloc, "x", b"a", GREATEST)?;
    Ok(body_left(&apply(None, write)))
}

// The rank of the present row, that of a write, and what a put and a delete of that rank leave: 1 is the present row,
// 2 that of the put, and 0 none.
const LEFT: [(i64, i64, u8, u8); 7] = [
    (LEAST, LEAST, 2, 0),
    (LEAST, GREATEST, 2, 0),
    (GREATEST, LEAST, 1, 1),
    (GREATEST, GREATEST, 2, 0),
    (-1, 0, 2, 0),
    (0, -1, 1, 1),
    (5, 5, 2, 0),
];

#[test]
fn applies_the_greater_rank_and_the_later_write(rt: HostRuntime) -> Result<(), Fail> {
    for (present, rank, after_put, after_del) in LEFT {
        assert_eq!(rt; put_over(rt.alloc(), present, rank)?, after_put);
        assert_eq!(rt; del_over(rt.alloc(), present, rank)?, after_del);
    }
    Ok(())
}

#[test]
fn applies_where_there_is_none(rt: HostRuntime) -> Result<(), Fail> {
    assert_eq!(rt; put_where_none(rt.alloc())?, 2);
    assert_eq!(rt; del_where_none(rt.alloc())?, 0);
    Ok(())
}
