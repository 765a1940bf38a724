// Runs of jobs on a table in memory.
use crate::driving::{begin_alone, fresh, upsert};
use hudi_base::{Name, Sequence, Store};
use std::test::Fail;
use store_mem::{MemClock, MemStore};
use table_board::Solo;
use table_history::{Job, Mark};

const JOB: Job = Job { lane: 1, line: 1 };

// 2024-01-01, in milliseconds.
const T0: u64 = 1_704_067_200_000;

// What the inflight file says of the one group of x in the table t. The tail of its file id is the version 5 UUID of `t/x` in
// the URL namespace.
const CLAIMS: &str =
    r#"{"groups":[{"base":"20000101000000000","file":"0000ffff-4f01-52df-a6be-557d177dca72-0","partition":"x"}]}"#;

// A mark of that job.
fn mark(step: u8, reply: u8, a: u64, b: u64) -> Mark {
    Mark {
        lane: 1,
        line: 1,
        step,
        reply,
        a,
        b,
    }
}

#[test]
fn an_upsert_makes_its_files(rt: HostRuntime) -> Result<(), Fail> {
    let alloc = rt.alloc();
    let mut board = fresh(alloc, Sequence::new(alloc), 0)?;
    upsert(alloc, &mut board, JOB)?;
    let marks = [
        mark(0, 0, T0, 0),
        mark(1, 1, 1, 0),
        mark(2, 2, 1, 0),
        mark(4, 4, T0, 0),
    ];
    assert_eq!(rt; board.journal(), marks.as_slice());
    let (store, _clock, closed) = board.close();
    assert_eq!(rt; closed.as_slice(), marks.as_slice());
    assert_eq!(rt; store.file_count(), 4);
    assert_eq!(rt; store.operations().len(), 4);
    let inflight = Name::from_text(alloc, ".hoodie/20240101000000000.deltacommit.inflight")?;
    assert_eq!(rt; store.file(&inflight), Some(CLAIMS.as_bytes()));
    Ok(())
}

#[test]
fn a_failed_creation_is_a_fault(rt: HostRuntime) -> Result<(), Fail> {
    let alloc = rt.alloc();
    let board = fresh(alloc, Sequence::from_vec(vec![in alloc; 0u64]?), 0)?;
    let mut solo = Solo::new(board);
    solo.set_job(1, 1);
    assert!(rt; begin_alone(&mut solo).is_err());
    let (store, _clock, marks) = solo.into_board().close();
    assert_eq!(rt; marks.as_slice(), [mark(0, 19, 0, 0)].as_slice());
    assert_eq!(rt; store.file_count(), 0);
    assert_eq!(rt; store.faults(), 1);
    Ok(())
}
