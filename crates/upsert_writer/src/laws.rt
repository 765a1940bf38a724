// Laws of batches, over the definitions of specs/. The function does nothing: its clauses are the laws.
ghost use Rattle.std.specs.Prelude.{◌≡◌, ℕ, List, true};
ghost use Rattle.std.specs.List.{AllByRecursion};
ghost use Rattle.hudi_base.specs.declared.file_group.GroupRef.{GroupRef};
ghost use Rattle.payload_merge.specs.Fold.{batch_at, writes_of};
ghost use Rattle.payload_merge.specs.declared.row.Write.{Write};
ghost use Rattle.upsert_writer.specs.BatchWrites.{is_in_group, batch_in};

/// Where all writes of a batch lie in one file group, an instant writes there what it makes of the whole batch.
pub fn batches_are_written_whole()
    ensures { (t : ℕ) (group : GroupRef) (batch : List Write)
        → AllByRecursion (λ w. is_in_group group w ≡ true) batch → batch_in t group batch ≡ writes_of (batch_at t batch) }
{}
