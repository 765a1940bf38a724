// What stops leave of three upserts, the second of which fails in its append.
ghost use Rattle.std.specs.Prelude.{◌≡◌, []};

use crate::driving::{MemBoard, fail_upsert, fresh, upsert};
use crate::reading::{LogFound, is_completed, log_in};
use hudi_base::{Name, Operation, Sequence};
use std::alloc::{AllocError, Global};
use std::test::Fail;
use store_mem::MemStore;
use table_history::Job;

const FIRST: Job = Job { lane: 1, line: 1 };

const SECOND: Job = Job { lane: 1, line: 2 };

const THIRD: Job = Job { lane: 1, line: 3 };

// What a plain reader finds: which of the three instants are completed, and what the two logs have.
#[derive(Clone, Copy, PartialEq, Eq)]
struct Found {
    completed: [bool; 3],
    first: LogFound,
    second: LogFound,
}

fn reading_of(
    alloc: Global,
    store: &MemStore,
    first: &Name,
    second: &Name,
) -> Result<Found, AllocError> {
    Ok(Found {
        completed: [
            is_completed(alloc, store, "20240101000000000")?,
            is_completed(alloc, store, "20240101000000001")?,
            is_completed(alloc, store, "20240101000000002")?,
        ],
        first: log_in(store, first),
        second: log_in(store, second),
    })
}

// What is found after the first `done` operations, and `most` bytes of the next one where it is an append: the third
// operation, of a whole block; the seventh, of the 50 bytes that the failing append left; and the tenth.
fn expected(done: usize, most: usize) -> Found {
    Found {
        completed: [done >= 4, false, done >= 11],
        first: LogFound {
            blocks: if done >= 3 { 1 } else { 0 },
            rest: match done {
                2 | 6 => most,
                7..=11 => 50,
                _ => 0,
            },
        },
        second: LogFound {
            blocks: if done >= 10 { 1 } else { 0 },
            rest: if done == 9 { most } else { 0 },
        },
    }
}

fn append_at(store: &MemStore, number: usize) -> Result<(&Name, usize), AllocError> {
    match store.operations().get(number) {
        Some(Operation::Append(name, bytes)) => Ok((name, bytes.as_slice().len())),
        _ => Err(AllocError),
    }
}

// Whether a plain reader finds what it should after each of these stops: so many operations, and so many bytes of the
// next one.
fn all_as_expected(
    alloc: Global,
    store: &MemStore,
    first: &Name,
    second: &Name,
    stops: &[(usize, usize)],
) -> Result<bool, AllocError> {
    for &(done, most) in stops {
        if done > store.operations().len() {
            return Ok(false);
        }
        let image = store.stopped(alloc, done, most as u64)?;
        if reading_of(alloc, &image, first, second)? != expected(done, most) {
            return Ok(false);
        }
    }
    Ok(true)
}

// After each operation.
const BETWEEN: [(usize, usize); 12] = [
    (0, 0),
    (1, 0),
    (2, 0),
    (3, 0),
    (4, 0),
    (5, 0),
    (6, 0),
    (7, 0),
    (8, 0),
    (9, 0),
    (10, 0),
    (11, 0),
];

// Within the three appends: one byte of each block, half of it, and all but one byte.
fn within(block: usize) -> [(usize, usize); 9] {
    let most = block.saturating_sub(1);
    [
        (2, 1),
        (2, block / 2),
        (2, most),
        (6, 1),
        (6, 25),
        (6, 49),
        (9, 1),
        (9, block / 2),
        (9, most),
    ]
}

// Three upserts, of which the second fails in its append.
fn three_upserts(alloc: Global, board: &mut MemBoard) -> Result<(), AllocError>
    requires { board.old.entries ≡ [] }
{
    upsert(alloc, board, FIRST)?;
    fail_upsert(alloc, board, SECOND)?;
    upsert(alloc, board, THIRD)
}

#[test]
fn a_plain_reader_finds_what_stops_leave(rt: HostRuntime) -> Result<(), Fail> {
    let alloc = rt.alloc();
    let mut board = fresh(alloc, Sequence::from_vec(vec![in alloc; 6u64]?), 50)?;
    three_upserts(alloc, &mut board)?;
    let (store, _clock, _marks) = board.close();
    assert_eq!(rt; store.operations().len(), 11);
    let (first, block) = append_at(&store, 2)?;
    let (second, _) = append_at(&store, 9)?;
    assert!(rt; all_as_expected(alloc, &store, first, second, &BETWEEN)?);
    assert!(rt; all_as_expected(alloc, &store, first, second, &within(block))?);
    Ok(())
}
