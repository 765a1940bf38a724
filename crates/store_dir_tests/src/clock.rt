// The clock of the system, and one that doesn't always tell the time.
use hudi_base::Clock;
use std::cell::Cell;
use std::io::{self, ErrorKind};
use std::time::Duration;
use store_dir::SystemClock;

// The beginnings of the years 2020 and 2100, in milliseconds since the beginning of 1970.
const YEAR_2020: i64 = 1_577_836_800_000;

const YEAR_2100: i64 = 4_102_444_800_000;

#[test]
fn the_time_is_in_milliseconds(rt: HostRuntime) {
    let mut clock = SystemClock::new(rt);
    let (first, second) = (clock.now(), clock.now());
    assert!(rt;
        YEAR_2020 < first && first <= second && second < YEAR_2100,
        "{first}, {second}"
    );
}

// A clock that is set, or tells no time.
#[derive(Drop)]
struct SetClock {
    ms: Cell<Option<u64>>,
}

impl std::time::Clock for SetClock {
    fn monotonic(&self) -> io::Result<Duration> {
        self.since_1970()
    }

    fn since_1970(&self) -> io::Result<Duration> {
        match self.ms.get() {
            Some(ms) => Ok(Duration::from_millis(ms)),
            None => Err(io::Error::from(ErrorKind::Unsupported)),
        }
    }
}

#[test]
fn the_last_answer_stands(rt: HostRuntime) {
    let set = SetClock {
        ms: Cell::new(None),
    };
    let mut clock = SystemClock::new(&set);
    let times = [
        (None, i64::MIN),
        (Some(7), 7),
        (None, 7),
        (Some(5), 5),
        (Some(u64::MAX), 5),
        (None, 5),
        (Some(6), 6),
    ];
    for (time, wanted) in times {
        set.ms.set(time);
        assert_eq!(rt; clock.now(), wanted);
    }
}
