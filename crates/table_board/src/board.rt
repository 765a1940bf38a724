// A table over a store and a clock.
ghost use Rattle.std.specs.Prelude.{◌≡◌, ◌↔◌, ◌∷◌, [], map, reverse, length, IfSome};
ghost use Rattle.std.specs.List.{AllByRecursion};
ghost use Rattle.hudi_base.specs.Faults.{CountsFault};
ghost use Rattle.hudi_base.specs.Clock.{after_answer};
ghost use Rattle.table_board.specs.Boards.{table_of, after_step, AsksClock, Shows, IsNewTable};
ghost use Rattle.table_board.specs.Boards.{FaultsCounted, DrawnTimes};
ghost use Rattle.table_board.specs.HonestRuns.{HasOwnReply, IsUndamaged, StandsThroughout, WhereStood};
ghost use Rattle.table_board.specs.KnownEntries.{known_entries};
ghost use Rattle.table_board.specs.StoreChanges.{Changes};
ghost use Rattle.table_core.specs.ControlTables.{IsLeaving};
ghost use Rattle.table_core.specs.Marks.{mark_of};
ghost use Rattle.table_history.specs.Histories.{own};
ghost use Rattle.table_history.specs.JobLaw.{Allows, IsLegal, IsReplyOf, phase};
ghost use Rattle.table_history.specs.Operations.{operation, DrawsAt};
ghost use Rattle.table_images.specs.Blocks.{HoldsBlocks};
ghost use Rattle.table_props.specs.PropsTexts.{told_of};

use crate::acting::perform;
use crate::journal::Journal;
use crate::preparing::{prepare, settle, take_entry};
use hudi_base::{Clock, Store};
use std::alloc::Global;
use std::marker::{Model, PhantomData};
use table_core::Control;
use table_history::{Entry, Job, Mark, Reply, Step, Work};

/// A table over a store and a clock. Contracts see its entries, the last one first, its store and its clock, and its
/// origin: the properties of the table, and how often the store had failed and how many operations it had done when the
/// board was made.
///
/// Over any store the entries are legal but for the bytes of the pieces that were read, at most as many of them are
/// faults as the store's count rose by, and each time was drawn after the greatest one before it: just above it, or no
/// later than the clock has shown. Over an honest store whose files stood for the table when the board was made, they
/// are a run on the store. A board holds all that its steps wrote and read.
#[derive(Drop)]
pub struct Board<S: Store, C: Clock, W: Work> {
    alloc: Global,
    store: S,
    clock: C,
    control: Control,
    journal: Journal,
    first_faults: u64,
    first_done: u64,
    work: PhantomData<W>,
}

impl<S: Store, C: Clock, W: Work> Model for Board<S, C, W> {
    ghost use Rattle.table_props.specs.PropsTexts.{told_of};
    ghost use Rattle.table_board.specs.Boards.{BoardState};
    ghost use Rattle.table_board.specs.HonestRuns.{BoardHolds};
    ghost use Rattle.table_board.specs.SchemaCodes.{schema_code};
    ghost use Rattle.std.specs.Coded.{codes};

    ghost Value = { BoardState S C };

    ghost coded = { Prim.hlevel (codes, schema_code) };

    ghost view = { λ board. record {
      entries = board.journal.entries;
      store = board.store;
      clock = board.clock;
      origin = record {
        props = told_of board.control.props;
        faults = board.first_faults;
        done = board.first_done;
      };
    } };

    ghost invariant = { λ board. BoardHolds (record { Asks = W.asks; Holds = W.holds }) board.control board.journal
        board.first_faults board.first_done (S.is_honest board.store) (S.state board.store) (C.state board.clock).most };
}

// What the clock shows, where the step is one that asks it.
fn ask<C: Clock>(clock: &mut C, step: &Step) -> i64
    ensures asks { AsksClock step.now (C.state clock.old) (C.state clock.new) }
    ensures shows { Shows step.now result (C.state clock.new) }
{
    match step {
        Step::Begin {} => clock.now(),
        _ => 0,
    }
}

impl<S: Store, C: Clock, W: Work> Board<S, C, W> {
    /// A board without entries. It takes no memory.
    pub fn new(alloc: Global, store: S, clock: C, control: Control) -> Board<S, C, W>
        requires { IsNewTable control }
        ensures entries { result.entries ≡ [] }
        ensures store { result.store ≡ store }
        ensures clock { result.clock ≡ clock }
        ensures props { result.origin.props ≡ told_of control.props }
        ensures faults { result.origin.faults ≡ (S.state store).faults }
        ensures done { IfSome (S.state store).told.operations (λ operations. result.origin.done ≡ length operations) }
    {
        let first_faults = store.faults();
        let first_done = store.done();
        Board {
            alloc,
            store,
            clock,
            control,
            journal: Journal::new(alloc),
            first_faults,
            first_done,
            work: PhantomData,
        }
    }

    /// Does the next step of a job, by the job's law, and adds its entry. Where it answers `Memory` neither the store
    /// nor the entries changed; `Unpin` and `Abandon` never answer that. `Fault` means that the store failed, and
    /// `Damaged` that a file exists that should be new, or is missing or too short. Begin asks the clock once, and no
    /// other step asks it.
    pub fn step(&mut self, job: Job, step: Step) -> Reply
        requires { Allows (record { Asks = W.asks; Holds = W.holds }) job
            (phase (own job self.old.entries)) step }
        ensures entries { self.new.entries ≡ after_step job step result self.old.entries }
        ensures reply { IsReplyOf step result }
        ensures store { Changes (S.is_honest self.old.store)
            (operation (table_of self.old.origin) (known_entries (table_of self.old.origin) self.old.entries)
            step result) result (S.state self.old.store).told (S.state self.new.store).told }
        ensures honest { S.is_honest self.old.store ↔ S.is_honest self.new.store }
        ensures faults { CountsFault (S.state self.old.store).faults (S.state self.new.store).faults
            (result ≡ Reply.Fault) }
        ensures clock { AsksClock step (C.state self.old.clock) (C.state self.new.clock) }
        ensures draws { DrawsAt (table_of self.old.origin) self.old.entries (C.state self.new.clock).last result }
        ensures origin { self.new.origin ≡ self.old.origin }
    {
        match &step {
            Step::Unpin { .. } => self.leave(job, step),
            Step::Abandon { .. } => self.leave(job, step),
            _ => {
                let now = ask(&mut self.clock, &step);
                self.act(job, step, now)
            }
        }
    }

    // Does a step that isn't a leaving one, while the clock shows `now`.
    fn act(&mut self, job: Job, step: Step, now: i64) -> Reply
        requires allowed { Allows (record { Asks = W.asks; Holds = W.holds }) job
            (phase (own job self.old.entries)) step }
        requires stays { IsLeaving step → ⊥ }
        requires shown { Shows step now (C.state self.old.clock) }
        ensures entries { self.new.entries ≡ after_step job step result self.old.entries }
        ensures reply { IsReplyOf step result }
        ensures store { Changes (S.is_honest self.old.store)
            (operation (table_of self.old.origin) (known_entries (table_of self.old.origin) self.old.entries)
            step result) result (S.state self.old.store).told (S.state self.new.store).told }
        ensures honest { S.is_honest self.old.store ↔ S.is_honest self.new.store }
        ensures faults { CountsFault (S.state self.old.store).faults (S.state self.new.store).faults
            (result ≡ Reply.Fault) }
        ensures clock { self.new.clock ≡ self.old.clock }
        ensures draws { DrawsAt (table_of self.old.origin) self.old.entries (C.state self.old.clock).last result }
        ensures origin { self.new.origin ≡ self.old.origin }
    {
        let Ok(prepared) = prepare(
            &mut self.control,
            &mut self.journal,
            self.alloc,
            job,
            &step,
            now,
        ) else {
            return Reply::Memory;
        };
        let outcome = perform(self.alloc, &mut self.store, &prepared.op);
        let Ok(replies) = settle(self.alloc, outcome, prepared) else {
            return Reply::Memory;
        };
        let entry = Entry {
            job,
            step,
            reply: replies.kept,
        };
        take_entry(&mut self.control, &entry);
        self.journal.push(entry);
        replies.given
    }

    // Does a step by which a job leaves its instant or its pin. It takes no memory.
    fn leave(&mut self, job: Job, step: Step) -> Reply
        requires allowed { Allows (record { Asks = W.asks; Holds = W.holds }) job
            (phase (own job self.old.entries)) step }
        requires leaving { IsLeaving step }
        ensures done { result ≡ Reply.Done }
        ensures entries { self.new.entries ≡ record { job = job; step = step; reply = Reply.Done } ∷ self.old.entries }
        ensures store { self.new.store ≡ self.old.store }
        ensures clock { self.new.clock ≡ self.old.clock }
        ensures origin { self.new.origin ≡ self.old.origin }
    {
        let entry = Entry {
            job,
            step,
            reply: Reply::Done,
        };
        take_entry(&mut self.control, &entry);
        self.journal.push(entry);
        Reply::Done
    }

    /// The marks of the entries, the first one first.
    pub fn journal(&self) -> &[Mark]
        ensures marks { result.now ≡ map mark_of (reverse self.now.entries) }
        ensures legal { IsLegal (record { Asks = W.asks; Holds = W.holds }) (table_of self.now.origin)
            (known_entries (table_of self.now.origin) self.now.entries) }
        ensures faults { FaultsCounted self.now.origin.faults self.now.entries (S.state self.now.store).faults }
        ensures drawn { DrawnTimes (table_of self.now.origin) (C.state self.now.clock).most self.now.entries }
        ensures replies { AllByRecursion HasOwnReply self.now.entries }

        // Where the store is honest and its files stood for the table when the board was made.
        ensures undamaged { HoldsBlocks W.holds → WhereStood (S.is_honest self.now.store) (S.state self.now.store).told
            self.now.origin (λ first operations. AllByRecursion IsUndamaged self.now.entries) }
        ensures legal_as_read { HoldsBlocks W.holds → WhereStood (S.is_honest self.now.store)
            (S.state self.now.store).told self.now.origin (λ first operations.
            IsLegal (record { Asks = W.asks; Holds = W.holds }) (table_of self.now.origin) self.now.entries) }
        ensures images { HoldsBlocks W.holds → WhereStood (S.is_honest self.now.store) (S.state self.now.store).told
            self.now.origin (λ first operations. StandsThroughout (record { Asks = W.asks; Holds = W.holds })
            (table_of self.now.origin) first self.now.origin.done operations self.now.entries) }
    {
        self.journal.marks()
    }

    /// The store, the clock and the marks of the entries, the first one first. It takes no memory.
    pub fn close(self) -> (S, C, Vec<Mark>)
        ensures store { result.0 ≡ self.store }
        ensures clock { result.1 ≡ self.clock }
        ensures marks { result.2.items ≡ map mark_of (reverse self.entries) }
    {
        (self.store, self.clock, self.journal.into_marks())
    }
}
