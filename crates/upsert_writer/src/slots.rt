// The slots that a writer asks for.
ghost use Rattle.std.specs.Prelude.{◌≡◌, ◌≤◌, ◌++◌, ◌∷◌, length, take, map, IfOk, All};
ghost use Rattle.table_forms.specs.NameForms.{IsPartitionPath};
ghost use Rattle.upsert_writer.specs.BatchWrites.{partition_of, slot_in};
ghost use Rattle.upsert_writer.specs.Slots.{AreSlotsOf};

use crate::writes::{partition_of, slot_in};
use hudi_base::{Name, Sequence};
use payload_merge::Write;
use std::alloc::{AllocError, Global};
use table_history::PartitionSlots;

// The slots of the keys of writes.
fn slots_in(alloc: Global, writes: &[Write]) -> Result<Sequence<u16>, AllocError>
    ensures { IfOk result (λ slots. slots ≡ map slot_in writes.now) }
{
    let mut slots = Sequence::new(alloc);
    for write in writes {
        slots.push(slot_in(write))?;
    }
    Ok(slots)
}

// How many of the first writes lie in a partition.
fn run_length(writes: &[Write], partition: &Name) -> usize
    ensures within { result ≤ length writes.now }
    ensures same { map partition_of (take result writes.now) ≡ map (λ w. partition.now) (take result writes.now) }
{
    for (i, write) in writes.iter().enumerate() {
        if partition_of(write).as_slice() != partition.as_slice() {
            return i;
        }
    }
    writes.len()
}

/// The slots of writes: those of writes of one partition that follow one another stand together. The only error is want of
/// memory.
pub(crate) fn slots_of(
    alloc: Global,
    writes: &[Write],
) -> Result<Sequence<PartitionSlots>, AllocError>
    requires { All (λ w. IsPartitionPath (partition_of w)) writes.now }
    ensures slots { IfOk result (AreSlotsOf writes.now) }
    ensures paths { IfOk result (All (λ asked. IsPartitionPath asked.partition)) }
{
    let mut asked = Sequence::new(alloc);
    let mut rest = writes;
    while let Some((first, later)) = rest.split_first() {
        let partition = partition_of(first);
        let run = 1 + run_length(later, partition);
        let (same, after) = rest.split_at(run);
        asked.push(PartitionSlots {
            partition: partition.copy(alloc)?,
            slots: slots_in(alloc, same)?,
        })?;
        rest = after;
    }
    Ok(asked)
}
