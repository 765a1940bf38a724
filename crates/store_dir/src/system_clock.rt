// The system's clock.
ghost use Rattle.std.specs.Prelude.{◌≡◌, ◌≤ℤ◌, pos, IfSome};
ghost use Rattle.hudi_base.specs.Clock.{ClockState};

use hudi_base::Clock;
use std::marker::Model;
use std::time::Clock as SystemTime;

/// The system's clock. Contracts see its last answer and the greatest of its answers, which before the first are the
/// least `i64`.
#[derive(Drop)]
pub struct SystemClock<R: SystemTime> {
    rt: R,
    last: i64,
    most: i64,
}

impl<R: SystemTime> Model for SystemClock<R> {
    ghost use Rattle.hudi_base.specs.Clock.{ClockState};

    ghost Value = { ClockState };

    ghost view = { λ clock. record { last = clock.last; most = clock.most } };
}

impl<R: SystemTime> SystemClock<R> {
    /// A clock that hasn't answered yet.
    pub fn new(rt: R) -> SystemClock<R>
        ensures { result ≡ record { last = i64.MIN; most = i64.MIN } }
    {
        SystemClock {
            rt,
            last: i64::MIN,
            most: i64::MIN,
        }
    }
}

// Milliseconds since the beginning of 1970, or none where the system doesn't tell.
fn system_ms(rt: &impl SystemTime) -> Option<i64>
    ensures { IfSome result (λ ms. pos 0 ≤ℤ ms) }
{
    i64::try_from(rt.since_1970().ok()?.as_millis()).ok()
}

impl<R: SystemTime> Clock for SystemClock<R> {
    ghost state = { λ clock. clock };

    // Where the system doesn't tell the time, its last answer stands.
    fn now(&mut self) -> i64 {
        self.last = system_ms(&self.rt).unwrap_or(self.last);
        self.most = self.most.max(self.last);
        self.last
    }
}
