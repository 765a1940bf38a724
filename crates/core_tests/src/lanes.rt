// Two writers side by side, told step by step.
ghost use Rattle.std.specs.Prelude.{IfOk, OnOk};
ghost use Rattle.core_tests.specs.Past.{HasPast, HasTwo, IsDrawn, IsWriting, IsPlaced};

use crate::driving::{abandon, append, append_in_vain, begin, enter, finish, fresh, look};
use hudi_base::InstantTime;
use std::alloc::{AllocError, Global};
use std::test::Fail;
use table_core::Control;
use table_history::Job;

const FIRST: Job = Job { lane: 1, line: 1 };

const SECOND: Job = Job { lane: 2, line: 2 };

const QUERY: Job = Job { lane: 1, line: 3 };

fn begin_both(
    alloc: Global,
    control: &mut Control,
    out: &mut String,
) -> Result<(InstantTime, InstantTime), AllocError>
    requires { HasPast control.old }
    ensures { IfOk result (λ both. HasTwo IsDrawn IsDrawn control.new SECOND both.1 FIRST both.0) }
{
    let first = begin(alloc, control, FIRST, out)?;
    let second = begin(alloc, control, SECOND, out)?;
    Ok((first, second))
}

fn enter_both(
    alloc: Global,
    control: &mut Control,
    first: InstantTime,
    second: InstantTime,
    out: &mut String,
) -> Result<(), AllocError>
    requires { HasTwo IsDrawn IsDrawn control.old SECOND second FIRST first }
    ensures { OnOk result (HasTwo IsWriting IsWriting control.new FIRST first SECOND second) }
{
    enter(alloc, control, SECOND, second, out)?;
    enter(alloc, control, FIRST, first, out)?;
    Ok(())
}

// The second one appends first.
fn append_both(
    alloc: Global,
    control: &mut Control,
    first: InstantTime,
    second: InstantTime,
    out: &mut String,
) -> Result<(), AllocError>
    requires { HasTwo IsWriting IsWriting control.old FIRST first SECOND second }
    ensures { OnOk result (HasTwo IsPlaced IsPlaced control.new FIRST first SECOND second) }
{
    append(alloc, control, SECOND, second, 20, out)?;
    append(alloc, control, FIRST, first, 10, out)?;
    Ok(())
}

// The append of the second one fails before the first one's.
fn append_one(
    alloc: Global,
    control: &mut Control,
    first: InstantTime,
    second: InstantTime,
    out: &mut String,
) -> Result<(), AllocError>
    requires { HasTwo IsWriting IsWriting control.old FIRST first SECOND second }
    ensures { OnOk result (HasTwo IsPlaced IsWriting control.new FIRST first SECOND second) }
{
    append_in_vain(alloc, control, SECOND, second, 20, out)?;
    append(alloc, control, FIRST, first, 10, out)?;
    Ok(())
}

// The second one finishes first.
fn finish_both(
    alloc: Global,
    control: &mut Control,
    first: InstantTime,
    second: InstantTime,
    out: &mut String,
) -> Result<(), AllocError>
    requires { HasTwo IsPlaced IsPlaced control.old FIRST first SECOND second }
    ensures { OnOk result (HasPast control.new) }
{
    finish(alloc, control, SECOND, second, out)?;
    finish(alloc, control, FIRST, first, out)?;
    Ok(())
}

fn abandon_one(
    alloc: Global,
    control: &mut Control,
    first: InstantTime,
    second: InstantTime,
    out: &mut String,
) -> Result<(), AllocError>
    requires { HasTwo IsPlaced IsWriting control.old FIRST first SECOND second }
    ensures { OnOk result (HasPast control.new) }
{
    abandon(alloc, control, SECOND, second, out)?;
    finish(alloc, control, FIRST, first, out)?;
    Ok(())
}

fn told_of_both(alloc: Global) -> Result<String, AllocError> {
    let mut out = String::new(alloc);
    let mut control = fresh(alloc)?;
    let (first, second) = begin_both(alloc, &mut control, &mut out)?;
    enter_both(alloc, &mut control, first, second, &mut out)?;
    append_both(alloc, &mut control, first, second, &mut out)?;
    finish_both(alloc, &mut control, first, second, &mut out)?;
    look(alloc, &mut control, QUERY, &mut out)?;
    Ok(out)
}

fn told_of_one(alloc: Global) -> Result<String, AllocError> {
    let mut out = String::new(alloc);
    let mut control = fresh(alloc)?;
    let (first, second) = begin_both(alloc, &mut control, &mut out)?;
    enter_both(alloc, &mut control, first, second, &mut out)?;
    append_one(alloc, &mut control, first, second, &mut out)?;
    abandon_one(alloc, &mut control, first, second, &mut out)?;
    look(alloc, &mut control, QUERY, &mut out)?;
    Ok(out)
}

const BOTH: &str = "\
began 0; create .hoodie/20240101000000000.deltacommit.requested
began 1; create .hoodie/20240101000000001.deltacommit.requested
entered 1; create .hoodie/20240101000000001.deltacommit.inflight
entered 1; create .hoodie/20240101000000000.deltacommit.inflight
placed 1 0; append 20 to x/.0000ffff-4f01-52df-a6be-557d177dca72-0_20000101000000000.log.1_0-0-0
placed 1 20; append 10 to x/.0000ffff-4f01-52df-a6be-557d177dca72-0_20000101000000000.log.1_0-0-0
completed 1; create .hoodie/20240101000000001.deltacommit
completed 0; create .hoodie/20240101000000000.deltacommit
pinned 1, completed 0 1, x/.0000ffff-4f01-52df-a6be-557d177dca72-0_20000101000000000.log.1_0-0-0 of 30
done
";

const ONE: &str = "\
began 0; create .hoodie/20240101000000000.deltacommit.requested
began 1; create .hoodie/20240101000000001.deltacommit.requested
entered 1; create .hoodie/20240101000000001.deltacommit.inflight
entered 1; create .hoodie/20240101000000000.deltacommit.inflight
placed 1 0; append 20 to x/.0000ffff-4f01-52df-a6be-557d177dca72-0_20000101000000000.log.1_0-0-0
placed 2 0; append 10 to x/.0000ffff-4f01-52df-a6be-557d177dca72-0_20000101000000000.log.2_0-0-1
done
completed 0; create .hoodie/20240101000000000.deltacommit
pinned 1, completed 0, x/.0000ffff-4f01-52df-a6be-557d177dca72-0_20000101000000000.log.2_0-0-1 of 10
done
";

#[test]
fn writers_go_side_by_side(rt: HostRuntime) -> Result<(), Fail> {
    let both = told_of_both(rt.alloc())?;
    assert_eq!(rt; both.as_str(), BOTH);
    let one = told_of_one(rt.alloc())?;
    assert_eq!(rt; one.as_str(), ONE);
    Ok(())
}
