// What a job asks its steps of.
ghost use Rattle.std.specs.Prelude.{◌≡◌, List};
ghost use Rattle.table_history.specs.JobLaw.{Allows, phase, entries_of, with_entry, PlacedEntry, GoesOn, EndsWith, IsReplyOf};
ghost use Rattle.table_history.specs.declared.entry.Entry.{Entry};
ghost use Rattle.table_history.specs.declared.job.Job.{Job};
ghost use Rattle.table_props.specs.PropsTexts.{Told as Properties};

use crate::{Reply, Step, Work};

/// A table that answers the steps of one job at a time.
pub trait Steps: Work {
    /// The properties of the table.
    ghost props: { Self → Properties };

    /// The entries that were seen, the last one first.
    ghost seen: { Self → List Entry };

    /// The job's own entries with their places, the last one first.
    ghost mine: { Self → List PlacedEntry };

    /// The job of the next steps.
    ghost job: { Self → Job };

    /// The second is a later state of the first: what no step changes is the same.
    ghost later: { Self → Self → Type 0 };

    /// Does the next step of the job's law.
    fn apply(&mut self, step: Step) -> Reply
        requires { Allows (record { Asks = Self.asks; Holds = Self.holds }) (job self.old) (phase (entries_of (mine self.old))) step }
        ensures job { job self.new ≡ job self.old }
        ensures seen { GoesOn (seen self.old) (seen self.new) }
        ensures last { EndsWith (job self.old) step result (seen self.new) }
        ensures mine { mine self.new ≡ with_entry (job self.old) step result (seen self.new) (mine self.old) }
        ensures reply { IsReplyOf step result }
        ensures later { later self.old self.new };

    /// It is its own later state, and a later state of a later one is one of its own.
    ghost later_itself: { (steps : Self) → later steps steps };

    ghost later_on: { (first second third : Self) → later first second → later second third → later first third };

    /// No step changes the properties.
    ghost later_props: { (first second : Self) → later first second → props second ≡ props first };
}
