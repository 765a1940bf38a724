// A sink in memory.
ghost use Rattle.std.specs.Prelude.{◌≡◌, ◌+◌, ◌<◌, ◌≤◌, [], ◌++◌, length, vec_len, vec_capacity, IfOk, Some};
ghost use Rattle.hudi_base.specs.Faults.{CountsFault};
ghost use Rattle.hudi_base.specs.Streams.{Sends};
ghost use Rattle.store_mem.specs.Calls.{no_calls};
ghost use Rattle.store_mem.specs.MemStreams.{MemoryWrites};

use crate::calls::Calls;
use hudi_base::{FaultCount, Sent, Sequence, Sink};
use std::alloc::{AllocError, Global};
use std::marker::Model;

/// Memory as a sink, which takes at most so many bytes a call and fails where it is asked to.
///
/// Each call of `write` has a number, from 0, whatever it answers. Those whose numbers are listed fail, and one fails
/// that has bytes to write and finds no room left; a failure writes no byte. The room is taken at the beginning, so
/// that no call fails for want of memory.
///
/// Contracts see the bytes written, the capacity, the most that a call takes, the calls and the number of failures.
#[derive(Drop)]
pub struct MemSink {
    bytes: Vec<u8>,
    capacity: usize,
    most: usize,
    calls: Calls,
    faults: FaultCount,
}

impl Model for MemSink {
    ghost use Rattle.std.specs.Prelude.{◌<◌, ◌≤◌, vec_len, vec_capacity};
    ghost use Rattle.store_mem.specs.MemStreams.{MemorySink};

    ghost Value = { MemorySink };

    ghost view = { λ sink. record { written = sink.bytes.items; capacity = sink.capacity; most = sink.most; calls = sink.calls; faults = sink.faults } };

    ghost invariant = { λ sink. (0 < sink.most) × (vec_len sink.bytes ≤ sink.capacity) × (sink.capacity ≤ vec_capacity sink.bytes) };
}

impl MemSink {
    /// A sink with no bytes and room for `capacity`, which takes at most `most` a call, and fails at the calls of
    /// these numbers, from 0. The only error is want of memory for the room.
    pub fn new(
        alloc: Global,
        capacity: usize,
        most: usize,
        failing: Sequence<u64>,
    ) -> Result<MemSink, AllocError>
        requires { 0 < most }
        ensures { IfOk result (λ sink. sink ≡ record { written = []; capacity = capacity; most = most; calls = no_calls failing; faults = 0 }) }
    {
        Ok(MemSink {
            bytes: Vec::with_capacity(alloc, capacity)?,
            capacity,
            most,
            calls: Calls::new(failing),
            faults: FaultCount::new(),
        })
    }

    /// The bytes that were written.
    pub fn written(&self) -> &[u8]
        ensures { result.now ≡ self.now.written }
    {
        &self.bytes
    }

    /// How many calls there were, up to the greatest `u64`.
    pub fn calls(&self) -> u64
        ensures { result ≡ self.now.calls.count }
    {
        self.calls.count()
    }

    /// How often it has failed, up to the greatest `u64`.
    pub fn faults(&self) -> u64
        ensures { result ≡ self.now.faults }
    {
        self.faults.get()
    }
}

impl Sink for MemSink {
    ghost use Rattle.store_mem.specs.MemStreams.{sink_state};

    ghost state = { sink_state };

    fn write(&mut self, bytes: &[u8]) -> Sent
        ensures exact { MemoryWrites self.old self.new result bytes.now }
        ensures answer { Sends (Some self.old.written) (Some self.new.written) result bytes.now }
        ensures cause { CountsFault self.old.faults self.new.faults (result ≡ Sent.Failed) }
    {
        let fails = self.calls.begin();
        let room = self.capacity - self.bytes.len();
        if fails || (room == 0 && !bytes.is_empty()) {
            self.faults.raise();
            return Sent::Failed;
        }
        let n = self.most.min(bytes.len().min(room));
        push_in_room(&mut self.bytes, &bytes[..n]);
        Sent::Took(n)
    }
}

// Adds bytes where there is room for them.
fn push_in_room(held: &mut Vec<u8>, bytes: &[u8])
    requires { vec_len held.old + length bytes.now ≤ vec_capacity held.old }
    ensures items { held.new.items ≡ held.old.items ++ bytes.now }
    ensures len { vec_len held.new ≡ vec_len held.old + length bytes.now }
    ensures capacity { vec_capacity held.old ≤ vec_capacity held.new }
{
    match held.extend_from_slice(bytes) {
        Ok(()) => {}
        Err(_) => unreachable!(),
    }
}
