// Replies and operations as text.
use hudi_base::InstantTime;
use std::alloc::AllocError;
use std::fmt::Write;
use table_history::{Decision, Op, Part, Reply, View};

/// 2024-01-01T00:00:00.000, in milliseconds.
pub(crate) const NOW: i64 = 1_704_067_200_000;

/// The instant so many milliseconds after NOW.
pub(crate) fn instant(ms: u64) -> InstantTime {
    match InstantTime::from_ms((NOW as u64).saturating_add(ms)) {
        Some(t) => t,
        None => InstantTime::LAST,
    }
}

// Milliseconds after NOW.
fn after_now(t: InstantTime) -> u64 {
    t.ms().saturating_sub(NOW as u64)
}

fn tell_part(part: &Part, out: &mut String) -> Result<(), AllocError> {
    let name = part.name.as_str();
    let length = part.length;
    write!(out, ", {name} of {length}")
}

fn tell_parts(parts: &[Part], out: &mut String) -> Result<(), AllocError> {
    for part in parts {
        tell_part(part, out)?;
    }
    Ok(())
}

fn tell_times(times: &[InstantTime], out: &mut String) -> Result<(), AllocError> {
    for t in times {
        let t = after_now(*t);
        write!(out, " {t}")?;
    }
    Ok(())
}

fn tell_view(view: &View, out: &mut String) -> Result<(), AllocError> {
    let pin = view.pin;
    write!(out, "pinned {pin}, completed")?;
    tell_times(view.completed.as_slice(), out)?;
    for group in view.groups.as_slice() {
        tell_parts(group.parts.as_slice(), out)?;
    }
    Ok(())
}

fn tell_reply(reply: &Reply, out: &mut String) -> Result<(), AllocError> {
    match reply {
        Reply::Began(t) => {
            let t = after_now(*t);
            write!(out, "began {t}")
        }
        Reply::Entered(targets) => {
            let count = targets.len();
            write!(out, "entered {count}")
        }
        Reply::Placed(version, at) => write!(out, "placed {version} {at}"),
        Reply::Completed(t) => {
            let t = after_now(*t);
            write!(out, "completed {t}")
        }
        Reply::Pinned(view) => tell_view(view, out),
        Reply::NotCompleted(t) => {
            let t = after_now(*t);
            write!(out, "not completed {t}")
        }
        Reply::Piece(_) => out.push_str("piece"),
        Reply::Done => out.push_str("done"),
        _ => out.push_str("other"),
    }
}

fn tell_op(op: &Op, out: &mut String) -> Result<(), AllocError> {
    match op {
        Op::Create(name, _) => {
            let name = name.as_str();
            write!(out, "; create {name}\n")
        }
        Op::Append(name, bytes) => {
            let name = name.as_str();
            let length = bytes.as_slice().len();
            write!(out, "; append {length} to {name}\n")
        }
        Op::Read(name, at, len) => {
            let name = name.as_str();
            write!(out, "; read {len} at {at} of {name}\n")
        }
        Op::Nothing => out.push_str("\n"),
        _ => out.push_str("; other\n"),
    }
}

/// A line for what was decided.
pub(crate) fn tell(decision: &Decision, out: &mut String) -> Result<(), AllocError> {
    tell_reply(&decision.reply, out)?;
    tell_op(&decision.op, out)
}
