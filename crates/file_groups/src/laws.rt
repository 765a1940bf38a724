// Laws of views and chains, over the definitions of specs/.
ghost use Rattle.std.specs.Prelude.{◌≡◌, ◌<◌, ◌≤◌, ℕ, List, MatchOption};
ghost use Rattle.std.specs.List.{All, Contains};
ghost use Rattle.file_names.specs.declared.file_name.FileName.{FileName};
ghost use Rattle.key_index.specs.Tiling.{Tiling};
ghost use Rattle.file_groups.specs.Chains.{newest_base, IsChain};
ghost use Rattle.file_groups.specs.Views.{AreViews};
ghost use Rattle.file_groups.specs.declared.parts.BasePart.{BasePart};
ghost use Rattle.file_groups.specs.declared.parts.GroupView.{GroupView};
ghost use Rattle.file_groups.specs.declared.parts.Part.{Part};

/// Files determine the views of groups, and a view its parts at each time. It does nothing: its clauses are the laws.
pub fn parts_are_determined()
    ensures views { (table : List ℕ) (tiles : Tiling) (files : List (FileName × ℕ)) (named : List BasePart)
        (views others : List GroupView)
        → AreViews table tiles files named views → AreViews table tiles files named others → views ≡ others }
    ensures chains { (view : GroupView) (t : ℕ) (parts others : List Part)
        → IsChain view t parts → IsChain view t others → parts ≡ others }

    // The newest base file is one of the base files, up to the time, and no other one up to the time is newer.
    ensures newest { (t : ℕ) (bases : List BasePart) → MatchOption (newest_base t bases)
        (All (λ base. t < base.time) bases)
        (λ newest. Contains bases newest × (newest.time ≤ t)
        × All (λ base. base.time ≤ t → base.time ≤ newest.time) bases) }
{}
