// What writes come to that are summed before they meet the row of their key.
ghost use Rattle.std.specs.Prelude.{◌≡◌, IfOk};
ghost use Rattle.payload_merge.specs.Summary.{IsOfKey};

use crate::rows::{body_left, del, put, row};
use payload_merge::Summary;
use std::alloc::{AllocError, Global};
use std::test::Fail;

const PARTITION: &str = "x";

const KEY: &[u8] = b"a";

// A write of a rank: a put of a row with this body, or a delete.
#[derive(Clone, Copy)]
enum Step {
    Put(i64, u8),
    Del(i64),
}

use Step::{Del, Put};

fn summary_of(alloc: Global, step: Step) -> Result<Summary, AllocError>
    ensures { IfOk result (λ summary. IsOfKey (PARTITION.now, KEY.now) summary.value) }
{
    let write = match step {
        Put(rank, body) => put(alloc, PARTITION, KEY, rank, body)?,
        Del(rank) => del(alloc, PARTITION, KEY, rank)?,
    };
    Ok(Summary::of_write(write))
}

fn sum_of(alloc: Global, first: Step, second: Step) -> Result<Summary, AllocError>
    ensures { IfOk result (λ summary. IsOfKey (PARTITION.now, KEY.now) summary.value) }
{
    let earlier = summary_of(alloc, first)?;
    let later = summary_of(alloc, second)?;
    Ok(earlier.then(later))
}

// The greatest rank of two writes.
fn most_of(alloc: Global, first: Step, second: Step) -> Result<i64, AllocError> {
    Ok(sum_of(alloc, first, second)?.most)
}

// The body of the row that two writes leave where there was none.
fn left_of_none(alloc: Global, first: Step, second: Step) -> Result<u8, AllocError> {
    let sum = sum_of(alloc, first, second)?;
    Ok(body_left(&sum.onto(None)))
}

// The same where there was a row of this rank, with the body 1.
fn left_of(alloc: Global, present: i64, first: Step, second: Step) -> Result<u8, AllocError> {
    let present = row(alloc, PARTITION, KEY, present, 1)?;
    let sum = sum_of(alloc, first, second)?;
    Ok(body_left(&sum.onto(Some(present))))
}

// The rank of the present row, two writes, and the body that they leave: of that row 1, and 0 where there is none.
const LEFT: [(i64, Step, Step, u8); 9] = [
    (6, Put(5, 2), Del(3), 1),
    (5, Put(5, 2), Del(3), 2),
    (6, Put(5, 2), Del(5), 1),
    (5, Put(5, 2), Del(5), 0),
    (7, Del(3), Del(2), 1),
    (10, Del(9), Put(2, 3), 1),
    (5, Del(9), Put(2, 3), 3),
    (1, Put(4, 2), Put(4, 3), 3),
    (1, Put(4, 2), Put(3, 3), 2),
];

#[test]
fn lays_writes_onto_a_row(rt: HostRuntime) -> Result<(), Fail> {
    for (present, first, second, left) in LEFT {
        assert_eq!(rt; left_of(rt.alloc(), present, first, second)?, left);
    }
    Ok(())
}

#[test]
fn sums_writes_where_there_is_none(rt: HostRuntime) -> Result<(), Fail> {
    assert_eq!(rt; left_of_none(rt.alloc(), Put(5, 2), Del(3))?, 2);
    assert_eq!(rt; left_of_none(rt.alloc(), Put(5, 2), Del(5))?, 0);
    assert_eq!(rt; left_of_none(rt.alloc(), Del(9), Put(2, 3))?, 3);
    assert_eq!(rt;
        most_of(rt.alloc(), Put(i64::MIN, 2), Del(i64::MAX))?,
        i64::MAX
    );
    assert_eq!(rt; most_of(rt.alloc(), Del(9), Put(2, 3))?, 9);
    Ok(())
}
