// Runs of one writer or query after another, told step by step: the reply and the operation that were decided. The tail
// of the file ids is the version 5 UUID of `t/x` in the URL namespace.
ghost use Rattle.std.specs.Prelude.{IfOk};
ghost use Rattle.core_tests.specs.Past.{HasPast};

use crate::driving::{begin_in_vain, fresh, look, look_at, write, write_in_vain, write_unfinished};
use crate::telling::instant;
use std::alloc::{AllocError, Global};
use std::test::Fail;
use table_core::Control;
use table_history::Job;

const JOB: Job = Job { lane: 1, line: 1 };

#[derive(Clone, Copy)]
enum Action {
    // A writer of a block of so many bytes, one whose append fails, and one whose Finish fails.
    Write(usize),
    WriteInVain(usize),
    WriteUnfinished(usize),
    BeginInVain,
    Look,
    // A query at an instant so many milliseconds after the first one, whose Read fails.
    LookAt(u64),
}

use Action::{BeginInVain, Look, LookAt, Write, WriteInVain, WriteUnfinished};

fn act(
    alloc: Global,
    control: &mut Control,
    action: Action,
    out: &mut String,
) -> Result<(), AllocError>
    requires { HasPast control.old }
    ensures { IfOk result (λ _. HasPast control.new) }
{
    match action {
        Write(length) => write(alloc, control, JOB, length, out),
        WriteInVain(length) => write_in_vain(alloc, control, JOB, length, out),
        WriteUnfinished(length) => write_unfinished(alloc, control, JOB, length, out),
        BeginInVain => begin_in_vain(alloc, control, JOB, out),
        Look => look(alloc, control, JOB, out),
        LookAt(ms) => look_at(alloc, control, JOB, instant(ms), out),
    }
}

fn told(alloc: Global, actions: &[Action]) -> Result<String, AllocError> {
    let mut control = fresh(alloc)?;
    let mut out = String::new(alloc);
    for action in actions {
        act(alloc, &mut control, *action, &mut out)?;
    }
    Ok(out)
}

const FIRST_APPEND_FAILS: &str = "\
began 0; create .hoodie/20240101000000000.deltacommit.requested
entered 1; create .hoodie/20240101000000000.deltacommit.inflight
placed 1 0; append 129 to x/.0000ffff-4f01-52df-a6be-557d177dca72-0_20000101000000000.log.1_0-0-0
done
began 1; create .hoodie/20240101000000001.deltacommit.requested
entered 1; create .hoodie/20240101000000001.deltacommit.inflight
placed 2 0; append 128 to x/.0000ffff-4f01-52df-a6be-557d177dca72-0_20000101000000000.log.2_0-0-1
completed 1; create .hoodie/20240101000000001.deltacommit
pinned 1, completed 1, x/.0000ffff-4f01-52df-a6be-557d177dca72-0_20000101000000000.log.2_0-0-1 of 128
done
";

const LATER_APPEND_FAILS: &str = "\
began 0; create .hoodie/20240101000000000.deltacommit.requested
entered 1; create .hoodie/20240101000000000.deltacommit.inflight
placed 1 0; append 10 to x/.0000ffff-4f01-52df-a6be-557d177dca72-0_20000101000000000.log.1_0-0-0
completed 0; create .hoodie/20240101000000000.deltacommit
began 1; create .hoodie/20240101000000001.deltacommit.requested
entered 1; create .hoodie/20240101000000001.deltacommit.inflight
placed 1 10; append 100 to x/.0000ffff-4f01-52df-a6be-557d177dca72-0_20000101000000000.log.1_0-0-0
done
began 2; create .hoodie/20240101000000002.deltacommit.requested
entered 1; create .hoodie/20240101000000002.deltacommit.inflight
placed 2 0; append 7 to x/.0000ffff-4f01-52df-a6be-557d177dca72-0_20000101000000000.log.2_0-0-1
completed 2; create .hoodie/20240101000000002.deltacommit
pinned 1, completed 0 2, x/.0000ffff-4f01-52df-a6be-557d177dca72-0_20000101000000000.log.1_0-0-0 of 10, \
x/.0000ffff-4f01-52df-a6be-557d177dca72-0_20000101000000000.log.2_0-0-1 of 7
done
";

// A Finish that fails leaves the block where it is, and the next one goes behind it.
const FINISH_FAILS: &str = "\
began 0; create .hoodie/20240101000000000.deltacommit.requested
entered 1; create .hoodie/20240101000000000.deltacommit.inflight
placed 1 0; append 10 to x/.0000ffff-4f01-52df-a6be-557d177dca72-0_20000101000000000.log.1_0-0-0
completed 0; create .hoodie/20240101000000000.deltacommit
done
began 1; create .hoodie/20240101000000001.deltacommit.requested
entered 1; create .hoodie/20240101000000001.deltacommit.inflight
placed 1 10; append 7 to x/.0000ffff-4f01-52df-a6be-557d177dca72-0_20000101000000000.log.1_0-0-0
completed 1; create .hoodie/20240101000000001.deltacommit
pinned 1, completed 1, x/.0000ffff-4f01-52df-a6be-557d177dca72-0_20000101000000000.log.1_0-0-0 of 17
done
";

// A Begin that fails draws no time. Nothing is pinned of an empty table.
const BEGIN_FAILS: &str = "\
pinned 1, completed
done
began 0; create .hoodie/20240101000000000.deltacommit.requested
began 0; create .hoodie/20240101000000000.deltacommit.requested
entered 1; create .hoodie/20240101000000000.deltacommit.inflight
placed 1 0; append 1 to x/.0000ffff-4f01-52df-a6be-557d177dca72-0_20000101000000000.log.1_0-0-0
completed 0; create .hoodie/20240101000000000.deltacommit
pinned 2, completed 0, x/.0000ffff-4f01-52df-a6be-557d177dca72-0_20000101000000000.log.1_0-0-0 of 1
done
";

// A named instant has its own completed instants, and files at their known lengths. One that isn't completed has no pin.
const INSTANTS_ARE_NAMED: &str = "\
began 0; create .hoodie/20240101000000000.deltacommit.requested
entered 1; create .hoodie/20240101000000000.deltacommit.inflight
placed 1 0; append 10 to x/.0000ffff-4f01-52df-a6be-557d177dca72-0_20000101000000000.log.1_0-0-0
completed 0; create .hoodie/20240101000000000.deltacommit
began 1; create .hoodie/20240101000000001.deltacommit.requested
entered 1; create .hoodie/20240101000000001.deltacommit.inflight
placed 1 10; append 7 to x/.0000ffff-4f01-52df-a6be-557d177dca72-0_20000101000000000.log.1_0-0-0
completed 1; create .hoodie/20240101000000001.deltacommit
pinned 1, completed 0, x/.0000ffff-4f01-52df-a6be-557d177dca72-0_20000101000000000.log.1_0-0-0 of 17
piece; read 4 at 3 of x/.0000ffff-4f01-52df-a6be-557d177dca72-0_20000101000000000.log.1_0-0-0
done
not completed 2
pinned 2, completed 0 1, x/.0000ffff-4f01-52df-a6be-557d177dca72-0_20000101000000000.log.1_0-0-0 of 17
piece; read 4 at 3 of x/.0000ffff-4f01-52df-a6be-557d177dca72-0_20000101000000000.log.1_0-0-0
done
";

#[test]
fn steps_are_decided(rt: HostRuntime) -> Result<(), Fail> {
    let first = told(rt.alloc(), &[WriteInVain(129), Write(128), Look])?;
    assert_eq!(rt; first.as_str(), FIRST_APPEND_FAILS);
    let later = told(rt.alloc(), &[Write(10), WriteInVain(100), Write(7), Look])?;
    assert_eq!(rt; later.as_str(), LATER_APPEND_FAILS);
    let finish = told(rt.alloc(), &[WriteUnfinished(10), Write(7), Look])?;
    assert_eq!(rt; finish.as_str(), FINISH_FAILS);
    let begin = told(rt.alloc(), &[Look, BeginInVain, Write(1), Look])?;
    assert_eq!(rt; begin.as_str(), BEGIN_FAILS);
    let named = told(
        rt.alloc(),
        &[Write(10), Write(7), LookAt(0), LookAt(2), LookAt(1)],
    )?;
    assert_eq!(rt; named.as_str(), INSTANTS_ARE_NAMED);
    Ok(())
}
