// A clock that answers what it is told to.
ghost use Rattle.std.specs.Prelude.{◌≡◌};

use hudi_base::Clock;

/// A clock that gives answers in turn, and the last of them again and again.
#[derive(Drop)]
pub struct TurnClock<'a> {
    answers: &'a [i64],
    turn: usize,
    last: i64,
    most: i64,
}

impl<'a> TurnClock<'a> {
    pub fn new(answers: &'a [i64]) -> TurnClock<'a> {
        TurnClock {
            answers,
            turn: 0,
            last: i64::MIN,
            most: i64::MIN,
        }
    }
}

impl Clock for TurnClock<'_> {
    ghost state = { λ clock. record { last = clock.last; most = clock.most } };

    fn now(&mut self) -> i64 {
        if let Some(answer) = self.answers.get(self.turn) {
            self.last = *answer;
            self.turn += 1;
        }
        self.most = self.most.max(self.last);
        self.last
    }
}
