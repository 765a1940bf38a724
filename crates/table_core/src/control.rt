// The control tables, and their first state.
ghost use Rattle.std.specs.Prelude.{[]};
ghost use Rattle.key_index.specs.Tiling.{IsBuckets};
ghost use Rattle.table_core.specs.ControlTables.{IsControl};
ghost use Rattle.table_history.specs.Tables.{fresh};
ghost use Rattle.table_props.specs.PropsTexts.{told_of};

use crate::rooms::Rooms;
use crate::slice_logs::SliceLogs;
use crate::written::TargetNumber;
use hudi_base::{InstantTime, Sequence, Target};
use key_index::Buckets;
use std::alloc::Global;
use table_history::Part;
use table_props::Props;

/// What the next steps of a table depend on. Each step costs the logarithm of the number of instants, slices and pins,
/// and the size of its reply.
#[derive(Drop)]
pub struct Control {
    pub(crate) props: Props,
    // How its partitions are tiled at first.
    pub(crate) buckets: Buckets,
    pub(crate) session: u64,
    // The greatest time that the timeline has or had.
    pub(crate) last: InstantTime,
    // The completed instants, in order of time.
    pub(crate) completed: Vec<InstantTime>,
    // The targets of instants, by their times in milliseconds.
    pub(crate) targets: Rooms<u64, Sequence<Target>>,
    // How many writes were placed for the targets of instants, where there are some.
    pub(crate) writes: Rooms<TargetNumber, u32>,
    pub(crate) slices: Rooms<Target, SliceLogs>,
    // How many names of files this session has tried.
    pub(crate) attempts: u64,
    // The files of live pins, by the pins' numbers.
    pub(crate) pins: Rooms<u64, Sequence<Part>>,
    pub(crate) pins_made: u64,
    // The targets of the Enter and the files of the Pin that are decided, until they are taken.
    pub(crate) entering: Sequence<Target>,
    pub(crate) pinning: Sequence<Part>,
}

impl Control {
    /// The control of a new table with these properties, whose partitions begin with 1 to 1,024 groups. It takes no
    /// memory.
    pub fn fresh(alloc: Global, props: Props) -> Control
        requires { IsBuckets props.buckets }
        ensures { IsControl (fresh (told_of props)) [] result }
    {
        Control {
            buckets: Buckets::new(props.buckets),
            props,
            session: 0,
            last: InstantTime::FIRST,
            completed: Vec::new(alloc),
            targets: Rooms::new(alloc),
            writes: Rooms::new(alloc),
            slices: Rooms::new(alloc),
            attempts: 0,
            pins: Rooms::new(alloc),
            pins_made: 0,
            entering: Sequence::new(alloc),
            pinning: Sequence::new(alloc),
        }
    }
}
