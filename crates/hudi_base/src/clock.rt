// The clock.
ghost use Rattle.std.specs.Prelude.{◌≡◌};
ghost use Rattle.hudi_base.specs.Clock.{ClockState, after_answer};

/// A clock in milliseconds since the beginning of 1970 in UTC. It may answer any number, and has no fault.
pub trait Clock {
    /// What is seen of it: its last answer, and the greatest of its answers.
    ghost state: { Self → ClockState };

    /// The time.
    fn now(&mut self) -> i64
        ensures { state self.new ≡ after_answer (state self.old) result };
}
