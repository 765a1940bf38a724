// A source in memory.
ghost use Rattle.std.specs.Prelude.{◌≡◌, ◌<◌, Some};
ghost use Rattle.hudi_base.specs.Faults.{CountsFault};
ghost use Rattle.hudi_base.specs.Streams.{Takes};
ghost use Rattle.store_mem.specs.Calls.{no_calls};
ghost use Rattle.store_mem.specs.MemStreams.{MemoryReads};

use crate::calls::Calls;
use crate::content::fill;
use hudi_base::{Bytes, FaultCount, Got, Sequence, Source};
use std::marker::Model;

/// Bytes in memory as a source, which gives at most so many a call and fails where it is asked to.
///
/// Each call of `read` has a number, from 0, whatever it answers. Those whose numbers are listed fail, and leave the
/// same bytes. It takes no memory.
///
/// Contracts see the bytes that are left, the most that a call gives, the calls and the number of failures.
#[derive(Drop)]
pub struct MemSource {
    bytes: Bytes,
    offset: usize,
    most: usize,
    calls: Calls,
    faults: FaultCount,
}

impl Model for MemSource {
    ghost use Rattle.std.specs.Prelude.{◌<◌, ◌≤◌, length, drop};
    ghost use Rattle.store_mem.specs.MemStreams.{MemorySource};

    ghost Value = { MemorySource };

    ghost view = { λ source. record { left = drop source.offset source.bytes; most = source.most; calls = source.calls; faults = source.faults } };

    ghost invariant = { λ source. (source.offset ≤ length source.bytes) × (0 < source.most) };
}

impl MemSource {
    /// A source of these bytes, which gives at most `most` a call, and fails at the calls of these numbers, from 0.
    pub fn new(bytes: Bytes, most: usize, failing: Sequence<u64>) -> MemSource
        requires { 0 < most }
        ensures { result ≡ record { left = bytes; most = most; calls = no_calls failing; faults = 0 } }
    {
        MemSource {
            bytes,
            offset: 0,
            most,
            calls: Calls::new(failing),
            faults: FaultCount::new(),
        }
    }

    /// The bytes that are left.
    pub fn bytes_left(&self) -> &[u8]
        ensures { result.now ≡ self.now.left }
    {
        &self.bytes.as_slice()[self.offset..]
    }

    /// How many calls there were, up to the greatest `u64`.
    pub fn calls(&self) -> u64
        ensures { result ≡ self.now.calls.count }
    {
        self.calls.count()
    }

    /// How often it has failed, up to the greatest `u64`.
    pub fn faults(&self) -> u64
        ensures { result ≡ self.now.faults }
    {
        self.faults.get()
    }
}

impl Source for MemSource {
    ghost use Rattle.store_mem.specs.MemStreams.{source_state};

    ghost state = { source_state };

    fn read(&mut self, buf: &mut [u8]) -> Got
        ensures exact { MemoryReads self.old self.new result buf.old buf.new }
        ensures answer { Takes (Some self.old.left) (Some self.new.left) result buf.new }
        ensures cause { CountsFault self.old.faults self.new.faults (result ≡ Got.Failed) }
    {
        if self.calls.begin() {
            self.faults.raise();
            return Got::Failed;
        }
        let n = fill(buf, &self.bytes.as_slice()[self.offset..], self.most);
        self.offset += n;
        Got::Took(n)
    }
}
