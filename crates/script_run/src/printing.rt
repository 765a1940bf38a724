// The text of a run.
ghost use Rattle.std.specs.Prelude.{◌≡◌, ◌++◌, List, ℕ, OnOk, OnErr, MatchResult};
ghost use Rattle.script_texts.specs.Marks.{marks_text};
ghost use Rattle.script_run.specs.Outcome.{is_failure};
ghost use Rattle.script_run.specs.Parts.{Prints};

use crate::verdict::Verdict;
use hudi_base::Bytes;
use script_texts::put_mark_text;
use std::alloc::{AllocError, Global};
use table_core::JobReply;
use table_history::Mark;

/// Whether a job failed, or found a file to be damaged.
pub(crate) fn is_failure(reply: &JobReply) -> bool
    ensures { result ≡ is_failure reply.now }
{
    matches!(reply, JobReply::Fault | JobReply::Damaged(_, _, _))
}

// Adds the lines of the entries at the end of a text. The only error is want of memory, and then the first of them were
// added.
fn put_journal(alloc: Global, text: &mut Vec<u8>, marks: &[Mark]) -> Result<(), AllocError>
    ensures ok { OnOk result (text.new.items ≡ text.old.items ++ marks_text marks.now) }
    ensures err { OnErr result ((rest : List ℕ) × (text.old.items ++ marks_text marks.now ≡ text.new.items ++ rest)) }
{
    for mark in marks {
        put_mark_text(alloc, text, mark)?;
    }
    Ok(())
}

/// How a run ends: the lines of its entries come behind those of its jobs, unless memory was wanting for these.
pub(crate) fn ending(
    alloc: Global,
    ran: Result<bool, AllocError>,
    lines: Vec<u8>,
    marks: &[Mark],
) -> Verdict
    ensures { Prints ran lines.items (marks_text marks.now) result }
{
    let mut text = lines;
    let Ok(failed) = ran else {
        return Verdict::OutOfMemory(Bytes::from_vec(text));
    };
    if put_journal(alloc, &mut text, marks).is_err() {
        return Verdict::OutOfMemory(Bytes::from_vec(text));
    }
    if failed {
        Verdict::Failed(Bytes::from_vec(text))
    } else {
        Verdict::Ran(Bytes::from_vec(text))
    }
}
