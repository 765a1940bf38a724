// The marks of entries, by the table of numbers.
ghost use Rattle.core_tests.specs.StepKinds.{LeavesEntry};

use hudi_base::{Bytes, InstantTime, Name};
use std::alloc::{AllocError, Global};
use std::test::Fail;
use table_core::mark;
use table_history::{Cause, Entry, Job, Mark, Reader, Reply, Step};

const JOB: Job = Job { lane: 3, line: 9 };

const T: InstantTime = InstantTime::FIRST;

const T_MS: u64 = 946_684_800_000;

// The mark of a step with its reply.
fn marked(step: Step, reply: Reply) -> Mark
    requires { LeavesEntry reply }
{
    let entry = Entry {
        job: JOB,
        step,
        reply,
    };
    mark(&entry)
}

fn append_mark(alloc: Global) -> Mark {
    let step = Step::Append {
        t: T,
        target: 0,
        writes: 1,
        bytes: Bytes::from_vec(Vec::new(alloc)),
    };
    marked(step, Reply::Placed(2, 129))
}

fn read_mark(alloc: Global) -> Mark {
    let step = Step::Read {
        from: Reader::Pin(1),
        file: 4,
        at: 16,
        len: 8,
    };
    marked(step, Reply::Piece(Bytes::from_vec(Vec::new(alloc))))
}

fn damaged_mark(alloc: Global) -> Result<Mark, AllocError> {
    let name = Name::from_text(alloc, "a")?;
    let step = Step::Finish {
        t: T,
        checkpoint: None,
    };
    Ok(marked(step, Reply::Damaged(name, Cause::Exists)))
}

fn numbered(step: u8, reply: u8, a: u64, b: u64) -> Mark {
    Mark {
        lane: 3,
        line: 9,
        step,
        reply,
        a,
        b,
    }
}

#[test]
fn entries_have_marks(rt: HostRuntime) -> Result<(), Fail> {
    assert_eq!(rt;
        marked(Step::Begin {}, Reply::Began(T)),
        numbered(0, 0, T_MS, 0)
    );
    assert_eq!(rt; append_mark(rt.alloc()), numbered(2, 2, 2, 129));
    assert_eq!(rt; read_mark(rt.alloc()), numbered(13, 10, 4, 16));
    assert_eq!(rt;
        marked(Step::Unpin { pin: 7 }, Reply::Done),
        numbered(12, 18, 7, 0)
    );
    assert_eq!(rt;
        marked(Step::Abandon { t: T }, Reply::Done),
        numbered(14, 18, T_MS, 0)
    );
    assert_eq!(rt; damaged_mark(rt.alloc())?, numbered(4, 20, 0, 0));
    Ok(())
}
