// Calls that are counted, some of which are to fail.
ghost use Rattle.std.specs.Prelude.{◌≡◌};
ghost use Rattle.store_mem.specs.Calls.{after_call, fails_next, no_calls};

use hudi_base::Sequence;
use std::marker::Model;

/// The calls of one kind: how many there were, and the numbers of those that are to fail. They are counted from 0,
/// and the count stands still at the greatest `u64`. Contracts see both.
#[derive(Drop)]
pub struct Calls {
    failing: Sequence<u64>,
    count: u64,
}

impl Model for Calls {
    ghost use Rattle.store_mem.specs.Calls.{CallState};

    ghost Value = { CallState };

    ghost view = { λ calls. record { failing = calls.failing; count = calls.count } };
}

impl Calls {
    /// No calls yet. Those of these numbers are to fail.
    pub fn new(failing: Sequence<u64>) -> Calls
        ensures { result ≡ no_calls failing }
    {
        Calls { failing, count: 0 }
    }

    /// How many there were.
    pub fn count(&self) -> u64
        ensures { result ≡ self.now.count }
    {
        self.count
    }

    /// Counts one more, and says whether it is to fail.
    pub fn begin(&mut self) -> bool
        ensures fails { result ≡ fails_next self.old }
        ensures counted { self.new ≡ after_call self.old }
    {
        let fails = self.failing.as_slice().contains(&self.count);
        self.count = self.count.saturating_add(1);
        fails
    }
}
