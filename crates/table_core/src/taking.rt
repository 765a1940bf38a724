// Entries that are taken into the tables, a function for each kind of step.
ghost use Rattle.std.specs.Prelude.{◌≡◌, ◌∷◌, ◌<◌, ◌+◌, ◌^◌, ℕ, List, Option, Bool, false, IsSome, length};
ghost use Rattle.table_core.specs.ControlTables.{IsControl, HasRoom, HasEnterRoom, HasAppendRoom, HasFinishRoom, HasPinRoom, slice_at};
ghost use Rattle.table_core.specs.Keys.{target_cmp};
ghost use Rattle.table_core.specs.Rooms.{found};
ghost use Rattle.table_core.specs.SliceStates.{HasBlockRoom, TakesBlock, GivesUp, names_tried};
ghost use Rattle.hudi_base.specs.declared.file_group.Target.{Target};
ghost use Rattle.table_history.specs.Answers.{IsNext, Answers, May};
ghost use Rattle.table_history.specs.Histories.{History};
ghost use Rattle.table_history.specs.Tables.{Table};
ghost use Rattle.table_history.specs.Targets.{is_target};
ghost use Rattle.table_history.specs.declared.job.Job.{Job};
ghost use Rattle.table_history.specs.declared.step.PartitionSlots.{PartitionSlots};

use crate::Control;
use crate::deciding::target_of;
use crate::rooms::Rooms;
use crate::slice_logs::SliceLogs;
use crate::times::insert_time;
use crate::written::{TargetNumber, add_writes};
use hudi_base::{InstantTime, Target};
use std::alloc::Global;
use table_history::{Entry, Reply, Step};

// A block was placed in a slice. Answers how many names of files were tried.
fn place(
    slices: &mut Rooms<Target, SliceLogs>,
    alloc: Global,
    slice: &Target,
    session: u64,
    attempts: u64,
    block: u64,
) -> u64
    requires slot { IsSome (found target_cmp slices.old slice.now) }
    requires room { HasBlockRoom (slice_at slices.old slice.now) block }
    ensures placed { TakesBlock (slice_at slices.old slice.now) (slice_at slices.new slice.now) session attempts block }
    ensures others { (s : Target) → is_target slice.now s ≡ false → slice_at slices.new s ≡ slice_at slices.old s }
    ensures tried { result ≡ names_tried (slice_at slices.old slice.now) }
{
    let mut logs = SliceLogs::none(alloc);
    slices.swap(slice, &mut logs);
    let tried = logs.names_tried();
    logs.place(session, attempts, block);
    slices.swap(slice, &mut logs);
    tried
}

// An append to a slice failed. Answers how many names of files were tried.
fn give_up(slices: &mut Rooms<Target, SliceLogs>, alloc: Global, slice: &Target) -> u64
    requires slot { IsSome (found target_cmp slices.old slice.now) }
    requires fits { (slice_at slices.old slice.now).version + 1 < 2 ^ 64 }
    ensures given_up { GivesUp (slice_at slices.old slice.now) (slice_at slices.new slice.now) }
    ensures others { (s : Target) → is_target slice.now s ≡ false → slice_at slices.new s ≡ slice_at slices.old s }
    ensures tried { result ≡ names_tried (slice_at slices.old slice.now) }
{
    let mut logs = SliceLogs::none(alloc);
    slices.swap(slice, &mut logs);
    let tried = logs.names_tried();
    logs.give_up();
    slices.swap(slice, &mut logs);
    tried
}

impl Control {
    /// Takes the next entry of the history, which leads to the tables of the history with that entry. It takes no
    /// memory.
    pub fn take(&mut self, entry: &Entry)
        requires { HasRoom self.old entry.now.step entry.now.reply }
        ensures { (A : Table) (H : History) → IsControl A H self.old
            → IsNext A H entry.now → IsControl A (entry.now ∷ H) self.new }
    {
        match &entry.step {
            Step::Begin {} => self.take_begin(&entry.reply),
            Step::Enter { t, .. } => self.take_enter(*t, &entry.reply),
            Step::Append {
                t,
                target,
                writes,
                bytes,
            } => {
                let block = bytes.as_slice().len() as u64;
                self.take_append(*t, *target, *writes, block, &entry.reply);
            }
            Step::Finish { .. } => self.take_finish(&entry.reply),
            Step::Pin { .. } => self.take_pin(&entry.reply),
            Step::Unpin { pin } => self.take_unpin(*pin),
            Step::Read { .. } => {}
            Step::Abandon { .. } => {}
        }
    }

    fn take_begin(&mut self, reply: &Reply)
        ensures { (A : Table) (H : History) (job : Job) → IsControl A H self.old → Answers A H Step.Begin reply.now
            → IsControl A (record { job = job; step = Step.Begin; reply = reply.now } ∷ H) self.new }
    {
        if let Reply::Began(t) = reply {
            self.last = *t;
        }
    }

    fn take_enter(&mut self, t: InstantTime, reply: &Reply)
        requires { HasEnterRoom self.old t reply.now }
        ensures { (A : Table) (H : History) (job : Job) (slots : List PartitionSlots) → IsControl A H self.old
            → May A H job (Step.Enter t slots)
            → Answers A H (Step.Enter t slots) reply.now
            → IsControl A (record { job = job; step = Step.Enter t slots; reply = reply.now } ∷ H) self.new }
    {
        if let Reply::Entered(_) = reply {
            self.targets.swap(&t.ms(), &mut self.entering);
        }
    }

    fn take_append(&mut self, t: InstantTime, target: u32, writes: u32, block: u64, reply: &Reply)
        requires { HasAppendRoom self.old t target writes block }
        ensures { (A : Table) (H : History) (job : Job) (bytes : List ℕ) → length bytes ≡ block
            → IsControl A H self.old
            → May A H job (Step.Append t target writes bytes)
            → Answers A H (Step.Append t target writes bytes) reply.now
            → IsControl A (record { job = job; step = Step.Append t target writes bytes; reply = reply.now } ∷ H)
            self.new }
    {
        let alloc = *self.completed.allocator();
        let Some(slice) = target_of(&self.targets, t, target) else {
            return;
        };
        match reply {
            Reply::Placed(_, _) => {
                let slices = &mut self.slices;
                let tried = place(slices, alloc, slice, self.session, self.attempts, block);
                self.attempts += tried;
                add_writes(
                    &mut self.writes,
                    TargetNumber::new(t, target as u64),
                    writes,
                );
            }
            Reply::Fault => {
                let tried = give_up(&mut self.slices, alloc, slice);
                self.attempts += tried;
            }
            _ => {}
        }
    }

    fn take_finish(&mut self, reply: &Reply)
        requires { HasFinishRoom self.old reply.now }
        ensures { (A : Table) (H : History) (job : Job) (t : ℕ) (checkpoint : Option ℕ) → IsControl A H self.old
            → Answers A H (Step.Finish t checkpoint) reply.now
            → IsControl A (record { job = job; step = Step.Finish t checkpoint; reply = reply.now } ∷ H) self.new }
    {
        if let Reply::Completed(t) = reply {
            insert_time(&mut self.completed, *t);
        }
    }

    fn take_pin(&mut self, reply: &Reply)
        requires { HasPinRoom self.old reply.now }
        ensures { (A : Table) (H : History) (job : Job) (at : Option ℕ) (bases_only : Bool) → IsControl A H self.old
            → Answers A H (Step.Pin at bases_only) reply.now
            → IsControl A (record { job = job; step = Step.Pin at bases_only; reply = reply.now } ∷ H) self.new }
    {
        if let Reply::Pinned(view) = reply {
            let pin = view.pin;
            self.pins.swap(&pin, &mut self.pinning);
            self.pins_made += 1;
        }
    }

    fn take_unpin(&mut self, pin: u64)
        ensures { (A : Table) (H : History) (job : Job) → IsControl A H self.old
            → IsControl A (record { job = job; step = Step.Unpin pin; reply = Reply.Done } ∷ H) self.new }
    {
        self.pins.remove(&pin);
    }
}
