// Laws of histories, over the definitions of specs/. The layers above go by these and not by the kinds of steps.
ghost use Rattle.std.specs.Prelude.{◌≡◌, ◌<◌, ◌≤◌, ℕ, List, ◌∷◌, Some, None, false};
ghost use Rattle.hudi_base.specs.declared.file_group.Target.{Target};
ghost use Rattle.table_history.specs.Answers.{May};
ghost use Rattle.table_history.specs.Concerns.{concerns, concerns_pin, touches, SameSlice, IsOpened, Stands};
ghost use Rattle.table_history.specs.Histories.{History, own};
ghost use Rattle.table_history.specs.Instants.{instant_of, owner_of};
ghost use Rattle.table_history.specs.JobLaw.{phase, Allows, IsLegal};
ghost use Rattle.table_history.specs.Pins.{pin_of};
ghost use Rattle.table_history.specs.Tables.{Table, KnownFile, fresh};
ghost use Rattle.table_history.specs.After.{reopened};
ghost use Rattle.table_history.specs.Times.{greatest_time};
ghost use Rattle.table_history.specs.declared.entry.Entry.{Entry};
ghost use Rattle.table_history.specs.declared.job.Job.{Job};
ghost use Rattle.table_history.specs.declared.step.Step.{Step};
ghost use Rattle.table_props.specs.PropsTexts.{Told as Properties};

use crate::Work;

/// An entry changes nothing of what it isn't about. It does nothing: its clauses are the laws.
pub fn entries_leave_others()
    ensures instants { (A : Table) (H : History) (e : Entry) (t : ℕ) → concerns e.step e.reply t ≡ false → instant_of A (e ∷ H) t ≡ instant_of A H t }
    ensures pins { (H : History) (e : Entry) (p : ℕ) → concerns_pin e.step e.reply p ≡ false → pin_of (e ∷ H) p ≡ pin_of H p }
    ensures slices { (A : Table) (H : History) (e : Entry) (s : Target) → touches A H e.step s ≡ false → SameSlice A H (e ∷ H) s }
{}

/// An instant that a job owns was drawn, in a table that was just opened or in this session.
pub fn owned_instants_were_drawn()
    ensures drawn { (A : Table) (H : History) → IsOpened A → (t : ℕ) (j : Job) → owner_of A H t ≡ Some j → t ≤ greatest_time A H }
    ensures undrawn { (A : Table) (H : History) → IsOpened A → (t : ℕ) → greatest_time A H < t → instant_of A H t ≡ None }
    ensures fresh { (props : Properties) → IsOpened (fresh props) }
    ensures reopened { (A : Table) (files : List KnownFile) → IsOpened (reopened A files) }
{}

/// A job that keeps its own law may ask the machine for its next step: its own entries tell how its instant and its pin
/// stand, whatever others do between.
pub fn jobs_may_ask<W: Work>()
    ensures stands { (A : Table) (H : History) → IsOpened A → IsLegal (record { Asks = W.asks; Holds = W.holds }) A H
        → (j : Job) → Stands A H j (phase (own j H)) }
    ensures may { (A : Table) (H : History) → IsOpened A → IsLegal (record { Asks = W.asks; Holds = W.holds }) A H
        → (j : Job) (s : Step) → Allows (record { Asks = W.asks; Holds = W.holds }) j (phase (own j H)) s → May A H j s }
{}
