// Entries as the journal prints them.
ghost use Rattle.std.specs.Prelude.{◌≡◌, ◌≢◌};
ghost use Rattle.table_core.specs.Marks.{step_number, cause_number, piece_mark, done_mark, reply_mark, mark_of};

use table_history::{Cause, Entry, Mark, Reply, Step};

// A reply's number, and two of its values.
#[derive(Clone, Copy)]
pub(crate) struct ReplyMark {
    reply: u8,
    a: u64,
    b: u64,
}

fn numbered(reply: u8, a: u64, b: u64) -> ReplyMark
    ensures { result ≡ record { reply = reply; a = a; b = b } }
{
    ReplyMark { reply, a, b }
}

fn step_number(step: &Step) -> u8
    ensures { result ≡ step_number step.now }
{
    match step {
        Step::Begin {} => 0,
        Step::Enter { .. } => 1,
        Step::Append { .. } => 2,
        Step::Finish { .. } => 4,
        Step::Pin { .. } => 11,
        Step::Unpin { .. } => 12,
        Step::Read { .. } => 13,
        Step::Abandon { .. } => 14,
    }
}

fn cause_number(cause: Cause) -> u64
    ensures { result ≡ cause_number cause }
{
    match cause {
        Cause::Missing => 1,
        Cause::Short => 2,
        _ => 0,
    }
}

fn piece_mark(step: &Step) -> ReplyMark
    ensures { result ≡ piece_mark step.now }
{
    match step {
        Step::Read { file, at, .. } => numbered(10, *file as u64, *at),
        _ => numbered(10, 0, 0),
    }
}

fn done_mark(step: &Step) -> ReplyMark
    ensures { result ≡ done_mark step.now }
{
    match step {
        Step::Unpin { pin } => numbered(18, *pin, 0),
        Step::Abandon { t } => numbered(18, t.ms(), 0),
        _ => numbered(18, 0, 0),
    }
}

fn reply_mark(step: &Step, reply: &Reply) -> ReplyMark
    requires { reply.now ≢ Reply.Memory }
    ensures { result ≡ reply_mark step.now reply.now }
{
    match reply {
        Reply::Began(t) => numbered(0, t.ms(), 0),
        Reply::Entered(targets) => numbered(1, targets.len() as u64, 0),
        Reply::Placed(version, at) => numbered(2, *version, *at),
        Reply::Completed(t) => numbered(4, t.ms(), 0),
        Reply::Pinned(view) => numbered(9, view.t.map_or(0, |t| t.ms()), view.pin),
        Reply::Piece(_) => piece_mark(step),
        Reply::NotCompleted(t) => numbered(13, t.ms(), 0),
        Reply::TimeOver => numbered(14, 0, 0),
        Reply::Done => done_mark(step),
        Reply::Fault => numbered(19, 0, 0),
        Reply::Damaged(_, cause) => numbered(20, cause_number(*cause), 0),
        Reply::Memory => unreachable!(),
    }
}

/// The mark of an entry: the numbers of its step and reply, times in milliseconds. It takes no memory.
pub fn mark(entry: &Entry) -> Mark
    requires { entry.now.reply ≢ Reply.Memory }
    ensures { result ≡ mark_of entry.now }
{
    let numbers = reply_mark(&entry.step, &entry.reply);
    Mark {
        lane: entry.job.lane,
        line: entry.job.line,
        step: step_number(&entry.step),
        reply: numbers.reply,
        a: numbers.a,
        b: numbers.b,
    }
}
