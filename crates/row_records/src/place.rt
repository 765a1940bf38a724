// Where a content stands.
ghost use Rattle.std.specs.Prelude.{◌≡◌};
ghost use Rattle.hudi_base.specs.InstantTime.{time_text};

use hudi_base::{InstantTime, Name};

// The instant of a block and its text, and the partition and the file id of its file group.
#[derive(Clone, Copy)]
pub(crate) struct Place<'a> {
    pub(crate) t: InstantTime,
    pub(crate) time: [u8; 17],
    pub(crate) partition: &'a Name,
    pub(crate) file_id: &'a Name,
    ghost timed: { time ≡ time_text t },
}

impl<'a> Place<'a> {
    pub(crate) fn new(t: InstantTime, partition: &'a Name, file_id: &'a Name) -> Place<'a>
        ensures t { result.t ≡ t }
        ensures partition { result.partition.now ≡ partition.now }
        ensures file_id { result.file_id.now ≡ file_id.now }
    {
        Place {
            t,
            time: t.text(),
            partition,
            file_id,
        }
    }
}
