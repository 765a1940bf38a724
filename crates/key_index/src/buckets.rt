// The groups that partitions begin with, slot by slot.
ghost use Rattle.std.specs.Prelude.{◌≡◌, ◌==◌, ◌&&◌, ◌≤◌, ◌<◌, ◌+◌, ◌∷◌, [], ℕ, List};
ghost use Rattle.hudi_base.specs.InstantTime.{first_time};
ghost use Rattle.key_index.specs.Tiling.{IsBuckets, first_start, first_groups, groups_at, is_among};

use hudi_base::{GroupRef, InstantTime, SlotRange};
use std::marker::Model;

/// How many groups each partition of a table begins with, from 1 to 1,024. Contracts see the number.
#[derive(Drop)]
pub struct Buckets {
    number: u16,
}

impl Model for Buckets {
    ghost use Rattle.std.specs.Prelude.{ℕ};
    ghost use Rattle.key_index.specs.Tiling.{IsBuckets};

    ghost Value = { ℕ };

    ghost view = { λ buckets. buckets.number };

    ghost invariant = { λ buckets. IsBuckets buckets.number };
}

// The number of the bucket that has a slot.
fn bucket_of(buckets: u16, slot: u16) -> u16
    requires some { 1 ≤ buckets }
    requires most { buckets ≤ 1024 }
    ensures number { result < buckets }
    ensures from { first_start buckets result ≤ slot }
    ensures to { slot < first_start buckets (result + 1) }
{
    (((slot as u32 + 1) * buckets as u32 - 1) / 65_536) as u16
}

// The first slot of a bucket, or of what comes behind the last one.
fn first_start(buckets: u16, i: u16) -> u32
    requires some { 1 ≤ buckets }
    requires number { i ≤ buckets }
    ensures { result ≡ first_start buckets i }
{
    i as u32 * 65_536 / buckets as u32
}

// Whether a group that a table began with has these slots.
fn has_range(group: &GroupRef, range: SlotRange) -> bool
    ensures { result ≡ (group.now.lo == range.lo && (group.now.hi == range.hi && group.now.born == first_time)) }
{
    group.lo == range.lo && (group.hi == range.hi && group.born == InstantTime::FIRST)
}

impl Buckets {
    /// That many.
    pub fn new(number: u16) -> Buckets
        requires { IsBuckets number }
        ensures { result ≡ number }
    {
        Buckets { number }
    }

    /// The slots of the group that a slot belongs to in the first tiling of a partition. It takes no memory.
    pub fn range_of(&self, slot: u16) -> SlotRange
        ensures { (partition : List ℕ) → groups_at slot (first_groups partition self.now)
            ≡ record { partition = partition; lo = result.lo; hi = result.hi; born = first_time } ∷ [] }
    {
        let i = bucket_of(self.number, slot);
        SlotRange {
            lo: first_start(self.number, i) as u16,
            hi: (first_start(self.number, i + 1) - 1) as u16,
        }
    }

    /// Whether a group is one of those that its partition begins with. It takes no memory.
    pub fn has(&self, group: &GroupRef) -> bool
        ensures { result ≡ is_among (first_groups group.now.partition self.now) group.now }
    {
        let _ = &self.number;
        has_range(group, self.range_of(group.lo))
    }
}
