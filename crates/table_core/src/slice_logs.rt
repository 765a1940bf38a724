// The logs of a slice.
ghost use Rattle.std.specs.Prelude.{◌≡◌, ◌<◌, ◌+◌, ◌^◌, OnOk, vec_len, vec_capacity, reverse};
ghost use Rattle.table_core.specs.SliceStates.{no_logs, first_length, length_in_use, attempt_of, HasBlockRoom, SameLogs, TakesBlock, GivesUp, names_tried};
ghost use Rattle.table_history.specs.Logs.{lengthened};

use std::alloc::{AllocError, Global};
use std::marker::Model;
use table_history::LogFile;

/// The logs of a slice, and the version that the next append goes to. Contracts see a `SliceState`, which has the logs
/// with the greatest version first.
#[derive(Drop)]
pub(crate) struct SliceLogs {
    // The least version first.
    logs: Vec<LogFile>,
    version: u64,
    unused: bool,
}

impl Model for SliceLogs {
    ghost use Rattle.std.specs.Prelude.{◌-◌, reverse, vec_len, vec_capacity};
    ghost use Rattle.table_core.specs.SliceStates.{SliceState};

    ghost Value = { SliceState };

    ghost view = { λ slice. record {
      logs = reverse slice.logs.items;
      version = slice.version;
      unused = slice.unused;
      room = vec_capacity slice.logs - vec_len slice.logs;
    } };
}

impl SliceLogs {
    // A slice without logs.
    pub(crate) fn none(alloc: Global) -> SliceLogs
        ensures { result ≡ no_logs }
    {
        SliceLogs {
            logs: Vec::new(alloc),
            version: 1,
            unused: true,
        }
    }

    // The logs, the least version first.
    pub(crate) fn logs(&self) -> &[LogFile]
        ensures { reverse result.now ≡ self.now.logs }
    {
        &self.logs
    }

    // The version that the next append goes to.
    pub(crate) fn version(&self) -> u64
        ensures { result ≡ self.now.version }
    {
        self.version
    }

    // How many names of files the next append tries.
    pub(crate) fn names_tried(&self) -> u64
        ensures { result ≡ names_tried self.now }
    {
        if self.unused { 1 } else { 0 }
    }

    // The known length of that version, in bytes.
    pub(crate) fn length_in_use(&self) -> u64
        ensures { result ≡ length_in_use self.now }
    {
        if self.unused {
            return 0;
        }
        match self.logs.last() {
            Some(log) => log.length,
            None => 0,
        }
    }

    // The attempt in the name of that version, when so many attempts were made.
    pub(crate) fn attempt(&self, attempts: u64) -> u64
        ensures { result ≡ attempt_of self.now attempts }
    {
        if self.unused {
            return attempts;
        }
        match self.logs.last() {
            Some(log) => log.attempt,
            None => 0,
        }
    }

    // Makes room for a block of so many bytes. The only error is want of memory, which is also where its length or the
    // next version would pass 64 bits.
    pub(crate) fn reserve(&mut self, block: u64) -> Result<(), AllocError>
        ensures room { OnOk result (HasBlockRoom self.new block) }
        ensures same { SameLogs self.old self.new }
    {
        if self.version == u64::MAX || self.length_in_use() > u64::MAX - block {
            return Err(AllocError);
        }
        self.logs.reserve(1)
    }

    // A block was placed in the version in use, which the first block makes. It takes no memory.
    pub(crate) fn place(&mut self, session: u64, attempts: u64, block: u64)
        requires { HasBlockRoom self.old block }
        ensures { TakesBlock self.old self.new session attempts block }
    {
        if self.unused {
            self.logs.push_reserved(LogFile {
                version: self.version,
                session,
                attempt: attempts,
                length: block,
            });
            self.unused = false;
        } else {
            lengthen(&mut self.logs, block);
        }
    }

    // An append to the version in use failed, so the next one goes to the version after it.
    pub(crate) fn give_up(&mut self)
        requires { self.old.version + 1 < 2 ^ 64 }
        ensures { GivesUp self.old self.new }
    {
        self.version += 1;
        self.unused = true;
    }
}

// A block more in the last of the logs.
fn lengthen(logs: &mut Vec<LogFile>, block: u64)
    requires { first_length (reverse logs.old.items) + block < 2 ^ 64 }
    ensures logs { reverse logs.new.items ≡ lengthened block (reverse logs.old.items) }
    ensures capacity { vec_capacity logs.new ≡ vec_capacity logs.old }
    ensures len { vec_len logs.new ≡ vec_len logs.old }
{
    if let Some(log) = logs.pop() {
        logs.push_reserved(LogFile {
            version: log.version,
            session: log.session,
            attempt: log.attempt,
            length: log.length + block,
        });
    }
}
