// A clock in memory.
ghost use Rattle.std.specs.Prelude.{◌≡◌};
ghost use Rattle.hudi_base.specs.Clock.{after_answer};

use hudi_base::Clock;
use std::marker::Model;

/// A clock that stands at a number, in milliseconds since the beginning of 1970, until it is set. Contracts see that
/// number, its last answer and the greatest of its answers; before the first, these two are the least `i64`.
#[derive(Drop)]
pub struct MemClock {
    stands_at: i64,
    last: i64,
    most: i64,
}

impl Model for MemClock {
    ghost use Rattle.store_mem.specs.MemClock.{MemoryClock};

    ghost Value = { MemoryClock };

    ghost view = { λ clock. record { stands_at = clock.stands_at; answers = record { last = clock.last; most = clock.most } } };
}

impl MemClock {
    /// A clock that stands at this number.
    pub fn at(now: i64) -> MemClock
        ensures { result ≡ record { stands_at = now; answers = record { last = i64.MIN; most = i64.MIN } } }
    {
        MemClock {
            stands_at: now,
            last: i64::MIN,
            most: i64::MIN,
        }
    }

    /// Lets it stand at this number, later or earlier.
    pub fn set(&mut self, now: i64)
        ensures { self.new ≡ record self.old { stands_at = now } }
    {
        self.stands_at = now;
    }
}

impl Clock for MemClock {
    ghost state = { λ clock. clock.answers };

    fn now(&mut self) -> i64
        ensures shown { result ≡ self.old.stands_at }
        ensures counted { self.new ≡ record self.old { answers = after_answer self.old.answers result } }
    {
        self.last = self.stands_at;
        self.most = self.most.max(self.last);
        self.last
    }
}
