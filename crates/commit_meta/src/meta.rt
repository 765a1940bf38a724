// What the files of the timeline hold.
use file_names::Action;
use hudi_base::{GroupRef, InstantTime, Name, Sequence, Target};
use meta_parts::{BaseMade, PlanGroup};

/// What a completed deltacommit did: its checkpoint in the source of its rows, where it has one, and how many writes it
/// made in each slice.
#[derive(Drop)]
pub struct DeltaMeta {
    pub checkpoint: Option<u64>,
    pub groups: Sequence<(Target, u32)>,
}

/// What a compaction is to do: the groups, with the files that it reads.
#[derive(Drop)]
pub struct CompactPlan {
    pub groups: Sequence<PlanGroup>,
}

/// What a completed compaction did: the base files that it made.
#[derive(Drop)]
pub struct BasesMeta {
    pub bases: Sequence<BaseMade>,
}

/// What a replacecommit is to do: the groups with the files that it reads, the field by which rows are ordered, where
/// one is named, and the groups that it makes.
#[derive(Drop)]
pub struct ClusterPlan {
    pub from: Sequence<PlanGroup>,
    pub order: Option<Name>,
    pub to: Sequence<GroupRef>,
}

/// What a completed replacecommit did: the base files that it made, and the groups that gave way.
#[derive(Drop)]
pub struct ReplacedMeta {
    pub bases: Sequence<BaseMade>,
    pub replaced: Sequence<GroupRef>,
}

/// What a clean is to do: the earliest instant that queries may read afterwards, and the files to remove.
#[derive(Drop)]
pub struct CleanPlan {
    pub earliest: InstantTime,
    pub files: Sequence<Name>,
}

/// What a rollback is to do: the instant to take back, which is a deltacommit or a replacecommit, the slices that a
/// deltacommit claimed, and the base files that a replacecommit made.
#[derive(Drop)]
pub struct RollbackPlan {
    pub target: InstantTime,
    pub kind: Action,
    pub groups: Sequence<Target>,
    pub files: Sequence<Name>,
}

/// What a file of the timeline holds.
#[derive(Drop)]
pub enum Meta {
    /// Nothing: the file has no bytes.
    Empty,
    /// The slices that a deltacommit under way writes to.
    Claims(Sequence<Target>),
    /// A completed deltacommit.
    Delta(DeltaMeta),
    /// A requested compaction.
    Compact(CompactPlan),
    /// A completed compaction.
    Bases(BasesMeta),
    /// A requested replacecommit.
    Cluster(ClusterPlan),
    /// A completed replacecommit.
    Replaced(ReplacedMeta),
    /// A requested clean.
    Clean(CleanPlan),
    /// A completed clean: how many files it was to remove.
    Cleaned(u32),
    /// A requested rollback.
    Rollback(RollbackPlan),
    /// A completed rollback: the instant that it took back.
    RolledBack(InstantTime),
}
