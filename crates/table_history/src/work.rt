// What jobs write.
ghost use Rattle.std.specs.Prelude.{ℕ, List};
ghost use Rattle.hudi_base.specs.declared.file_group.Target.{Target};
ghost use Rattle.table_history.specs.declared.job.Job.{Job};
ghost use Rattle.table_history.specs.declared.step.PartitionSlots.{PartitionSlots};

/// What the jobs of a run write: meanings alone, which a codec and the run's script give.
pub trait Work {
    /// The slots that a job's batch has.
    ghost asks: { Job → List PartitionSlots → Type 0 };

    /// The bytes are the block, of so many writes, of a job's instant for a target.
    ghost holds: { Job → ℕ → Target → ℕ → List ℕ → Type 0 };
}
