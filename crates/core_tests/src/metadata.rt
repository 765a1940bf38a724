// The bytes of the timeline's files, as they are decided. The tails of the file ids are the version 5 UUIDs of `t/x` and
// `t/y` in the URL namespace.
use crate::driving::{append, begin, enter, fresh, fresh_with};
use crate::telling::NOW;
use crate::tiles::decide_wide;
use std::alloc::{AllocError, Global};
use std::test::Fail;
use table_history::{Decision, Job, Op, Step};

const JOB: Job = Job { lane: 1, line: 1 };

// The bytes of the file that is made, as text.
fn created(alloc: Global, decision: &Decision) -> Result<String, AllocError> {
    let Op::Create(_, bytes) = &decision.op else {
        return Err(AllocError);
    };
    match std::str::from_utf8(bytes.as_slice()) {
        Ok(text) => String::from_str(alloc, text),
        Err(_) => Err(AllocError),
    }
}

// What an Enter of slots of two partitions claims, of three groups each.
fn claims(alloc: Global) -> Result<String, AllocError> {
    let mut control = fresh_with(alloc, 3)?;
    let mut out = String::new(alloc);
    let t = begin(alloc, &mut control, JOB, &mut out)?;
    created(alloc, &decide_wide(alloc, &control, t)?)
}

// What a Finish says after one write.
fn finished(alloc: Global, checkpoint: Option<u64>) -> Result<String, AllocError> {
    let mut control = fresh(alloc)?;
    let mut out = String::new(alloc);
    let t = begin(alloc, &mut control, JOB, &mut out)?;
    enter(alloc, &mut control, JOB, t, &mut out)?;
    append(alloc, &mut control, JOB, t, 10, &mut out)?;
    created(
        alloc,
        &control.decide(alloc, JOB, &Step::Finish { t, checkpoint }, NOW)?,
    )
}

const CLAIMS: &str = concat!(
    r#"{"groups":["#,
    r#"{"base":"20000101000000000","file":"00005554-4f01-52df-a6be-557d177dca72-0","partition":"x"},"#,
    r#"{"base":"20000101000000000","file":"5555aaa9-4f01-52df-a6be-557d177dca72-0","partition":"x"},"#,
    r#"{"base":"20000101000000000","file":"aaaaffff-339d-5fba-b2c2-9d158f0c965f-0","partition":"y"}]}"#
);

#[test]
fn timeline_files_have_their_metadata(rt: HostRuntime) -> Result<(), Fail> {
    assert_eq!(rt; claims(rt.alloc())?.as_str(), CLAIMS);
    let some = finished(rt.alloc(), Some(u64::MAX))?;
    let group =
        r#""base":"20000101000000000","file":"0000ffff-4f01-52df-a6be-557d177dca72-0","partition":"x""#;
    let wanted = format!(in rt.alloc();
        "{{\"checkpoint\":18446744073709551615,\"groups\":[{{{group},\"writes\":1}}]}}"
    )?;
    assert_eq!(rt; some.as_str(), wanted.as_str());
    let none = finished(rt.alloc(), None)?;
    assert!(rt;
        none.as_str()
            .starts_with(r#"{"checkpoint":null,"groups":[{"base":"#)
    );
    Ok(())
}
