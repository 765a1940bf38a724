// The line of an entry.
ghost use Rattle.std.specs.Prelude.{◌≡◌, ◌++◌, IfOk, OnOk, OnErr, string_bytes};
ghost use Rattle.script_texts.specs.Marks.{mark_text, name_in, step_names, reply_names};

use std::alloc::{AllocError, Global};
use table_history::Mark;

/// Adds the line of an entry at the end of a text. The only error is want of memory, and then the text is as it was.
pub fn put_mark_text(alloc: Global, out: &mut Vec<u8>, mark: &Mark) -> Result<(), AllocError>
    ensures ok { OnOk result (out.new.items ≡ out.old.items ++ mark_text mark.now) }
    ensures err { OnErr result (out.new.items ≡ out.old.items) }
{
    let line = mark_line(alloc, mark)?;
    out.extend_from_slice(line.as_str().as_bytes())
}

// The line of an entry.
fn mark_line(alloc: Global, mark: &Mark) -> Result<String, AllocError>
    ensures { IfOk result (λ line. string_bytes line ≡ mark_text mark.now) }
{
    let (lane, line, a, b) = (mark.lane, mark.line, mark.a, mark.b);
    let step = step_name(mark.step);
    let reply = reply_name(mark.reply);
    format!(in alloc; "mark {lane} {line} {step} {reply} {a} {b}\n")
}

// The name of a step.
#[tactic(auto, using(std::proofs::lemmas::List::get_or_past), unfolding(crate::specs::Marks::name_in))]
fn step_name(number: u8) -> &'static str
    ensures { result.now ≡ name_in step_names number }
{
    match number {
        0 => "begin",
        1 => "enter",
        2 => "append",
        3 => "create_base",
        4 => "finish",
        5 => "plan_compaction",
        6 => "plan_cluster",
        7 => "plan_clean",
        8 => "begin_rollback",
        9 => "remove",
        10 => "withdraw",
        11 => "pin",
        12 => "unpin",
        13 => "read",
        14 => "abandon",
        _ => "",
    }
}

// The name of a reply.
#[tactic(auto, using(std::proofs::lemmas::List::get_or_past), unfolding(crate::specs::Marks::name_in))]
fn reply_name(number: u8) -> &'static str
    ensures { result.now ≡ name_in reply_names number }
{
    match number {
        0 => "began",
        1 => "entered",
        2 => "placed",
        3 => "made_base",
        4 => "completed",
        5 => "conflict",
        6 => "planned",
        7 => "nothing",
        8 => "taken",
        9 => "pinned",
        10 => "bytes",
        11 => "removed",
        12 => "not_retained",
        13 => "not_completed",
        14 => "time_over",
        15 => "not_a_group",
        16 => "too_narrow",
        17 => "busy",
        18 => "done",
        19 => "fault",
        20 => "damaged",
        _ => "",
    }
}
