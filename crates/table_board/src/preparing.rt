// What comes before and after the operation of a step.
ghost use Rattle.std.specs.Prelude.{◌≡◌, ◌≢◌, ◌≤◌, ◌<◌, ◌+◌, ◌∷◌, IfOk, OnOk, OnErr, true};
ghost use Rattle.table_board.specs.KnownEntries.{known_entry, is_read};
ghost use Rattle.table_board.specs.Outcomes.{reply_after, file_of, ChangesNothing, HasTime};
ghost use Rattle.table_core.specs.ControlTables.{IsControl, IsAsked, HasRoom, HasRoomFor};
ghost use Rattle.table_history.specs.Answers.{IsNext};
ghost use Rattle.table_history.specs.Histories.{History};
ghost use Rattle.table_history.specs.Operations.{Decides};
ghost use Rattle.table_history.specs.Tables.{Table};

use crate::acting::Outcome;
use crate::copies::copy_reply;
use crate::journal::Journal;
use hudi_base::{Bytes, Name};
use std::alloc::{AllocError, Global};
use table_core::Control;
use table_history::{Cause, Entry, Job, Op, Reply, Step};

/// The reply of a step: one that its entry keeps, and one that its job is given.
#[derive(Drop)]
pub(crate) struct Replies {
    pub(crate) kept: Reply,
    pub(crate) given: Reply,
}

/// What was decided of a step.
#[derive(Drop)]
pub(crate) struct Prepared {
    pub(crate) op: Op,
    pub(crate) replies: Replies,
}

/// Decides a step, and makes room for its entry. The only error is want of memory.
pub(crate) fn prepare(
    control: &mut Control,
    journal: &mut Journal,
    alloc: Global,
    job: Job,
    step: &Step,
    now: i64,
) -> Result<Prepared, AllocError>
    requires { IsAsked control.old job step.now }
    ensures decided { IfOk result (λ prepared. (A : Table) (H : History) → IsControl A H control.old
        → Decides A H step.now now (record { reply = prepared.replies.kept; op = prepared.op })) }
    ensures given { IfOk result (λ prepared. prepared.replies.given ≡ prepared.replies.kept) }
    ensures time { IfOk result (λ prepared. HasTime prepared.replies.kept) }
    ensures room { IfOk result (λ prepared. HasRoomFor control.new step.now prepared.replies.kept) }
    ensures for_entry { OnOk result (journal.old.owed + 2 ≤ journal.new.room) }
    ensures tables { (A : Table) (H : History) → IsControl A H control.old → IsControl A H control.new }
    ensures entries { journal.new.entries ≡ journal.old.entries }
    ensures owed { journal.new.owed ≡ journal.old.owed }
    ensures for_owed { journal.old.room ≤ journal.new.room }
{
    let decision = control.decide(alloc, job, step, now)?;
    let given = copy_reply(alloc, &decision.reply)?;
    control.reserve(alloc, step, &decision)?;
    journal.reserve()?;
    Ok(Prepared {
        op: decision.op,
        replies: Replies {
            kept: decision.reply,
            given,
        },
    })
}

fn copy_file(alloc: Global, op: &Op) -> Result<Name, AllocError>
    ensures { IfOk result (λ name. name ≡ file_of op.now) }
{
    match op {
        Op::Nothing => Name::from_text(alloc, ""),
        Op::Create(name, _) => name.copy(alloc),
        Op::Append(name, _) => name.copy(alloc),
        Op::Remove(name) => name.copy(alloc),
        Op::Read(name, _, _) => name.copy(alloc),
    }
}

fn damaged(alloc: Global, op: &Op, cause: Cause) -> Result<Replies, AllocError>
    ensures kept { IfOk result (λ replies. replies.kept ≡ Reply.Damaged (file_of op.now) cause) }
    ensures given { IfOk result (λ replies. replies.given ≡ replies.kept) }
{
    Ok(Replies {
        kept: Reply::Damaged(copy_file(alloc, op)?, cause),
        given: Reply::Damaged(copy_file(alloc, op)?, cause),
    })
}

fn piece(alloc: Global, bytes: Bytes) -> Result<Replies, AllocError>
    ensures kept { IfOk result (λ replies. replies.kept ≡ Reply.Piece bytes) }
    ensures given { IfOk result (λ replies. replies.given ≡ replies.kept) }
{
    let given = Reply::Piece(bytes.copy(alloc)?);
    Ok(Replies {
        kept: Reply::Piece(bytes),
        given,
    })
}

/// The reply of a step whose operation came to this. The only error is want of memory, and then the operation changed
/// nothing.
pub(crate) fn settle(
    alloc: Global,
    outcome: Outcome,
    prepared: Prepared,
) -> Result<Replies, AllocError>
    requires { prepared.replies.given ≡ prepared.replies.kept }
    ensures kept { IfOk result (λ replies. replies.kept ≡ reply_after outcome prepared.op prepared.replies.kept) }
    ensures given { IfOk result (λ replies. replies.given ≡ replies.kept) }
    ensures known { OnOk result (outcome ≢ Outcome.Memory) }
    ensures unchanged { OnErr result (ChangesNothing outcome) }
{
    match outcome {
        Outcome::Done => Ok(prepared.replies),
        Outcome::Piece(bytes) => piece(alloc, bytes),
        Outcome::Fault => Ok(Replies {
            kept: Reply::Fault,
            given: Reply::Fault,
        }),
        Outcome::Damaged(cause) => damaged(alloc, &prepared.op, cause),
        Outcome::Memory => Err(AllocError),
    }
}

fn is_read(step: &Step) -> bool
    ensures { result ≡ is_read step.now }
{
    match step {
        Step::Read { .. } => true,
        _ => false,
    }
}

/// Takes an entry into the control. It takes no memory. A read changes nothing of what the next steps depend on, so the
/// bytes of a piece don't count.
#[tactic(auto, using(crate::proofs::Taking::same_entry, crate::proofs::Taking::read_taken))]
pub(crate) fn take_entry(control: &mut Control, entry: &Entry)
    requires { HasRoom control.old entry.now.step entry.now.reply }
    ensures { (A : Table) (H : History) → IsControl A H control.old → IsNext A H (known_entry A H entry.now)
        → IsControl A (known_entry A H entry.now ∷ H) control.new }
{
    if !is_read(&entry.step) {
        control.take(entry);
    }
}
