// The count of faults that an adapter keeps.
ghost use Rattle.std.specs.Prelude.{◌≡◌, ◌^◌, ◌<◌};
ghost use Rattle.hudi_base.specs.Faults.{CountsFault, one_more};

use std::marker::Model;

/// How often something of the outside has failed. It stands still at the greatest `u64`. Contracts see the number.
#[derive(Clone, Copy)]
pub struct FaultCount {
    count: u64,
}

impl Model for FaultCount {
    ghost use Rattle.std.specs.Prelude.{ℕ, ◌^◌, ◌<◌};

    ghost Value = { ℕ };

    ghost view = { λ faults. faults.count };

    ghost invariant = { λ faults. faults.count < 2 ^ 64 };

    ghost inverse = { λ count. record { count = count } };
}

impl FaultCount {
    /// No fault.
    pub fn new() -> FaultCount
        ensures { result ≡ 0 }
    {
        FaultCount { count: 0 }
    }

    /// How many there were.
    pub fn get(self) -> u64
        ensures count { result ≡ self }
        ensures range { self < 2 ^ 64 }
    {
        self.count
    }

    /// Counts one more.
    pub fn raise(&mut self)
        ensures count { self.new ≡ one_more self.old }
        ensures cause { CountsFault self.old self.new (Unit {0}) }
    {
        self.count = self.count.saturating_add(1);
    }
}
