// The times that instants have.
ghost use Rattle.std.specs.Prelude.{IsUtf8, ◌≡◌, ◌<◌, ◌≤◌, Some, None, SomeIff, MatchResult, not, position};
ghost use Rattle.hudi_base.specs.InstantTime.{IsTime, last_time, time_after, time_text, is_digit, goes_wrong, time_of};

use crate::civil_time::CivilTime;
use std::marker::Model;

/// A time from 2000-01-01 to 9999-12-31 in UTC, in whole milliseconds. Contracts see the number of milliseconds
/// since the beginning of 1970.
#[derive(Clone, Copy, Debug, PartialEq, Eq, PartialOrd, Ord)]
pub struct InstantTime {
    since_1970: u64,
}

impl Model for InstantTime {
    ghost use Rattle.std.specs.Prelude.{ℕ};
    ghost use Rattle.hudi_base.specs.InstantTime.{IsTime};

    ghost Value = { ℕ };

    ghost view = { λ time. time.since_1970 };

    ghost invariant = { λ time. IsTime time.since_1970 };

    ghost inverse = { λ ms. record { since_1970 = ms } };
}

/// No time comes after the last one.
#[derive(Clone, Copy, Debug, PartialEq, Eq)]
pub struct TimeOver;

/// The offset at which a text goes wrong that isn't seventeen digits of a time: that of the first byte that isn't a
/// digit; else, where it isn't seventeen long, its length or 17, whichever is less; else that of the first field that
/// is out of its range (year 0, month 4, day 6, hour 8, minute 10, second 12).
#[derive(Clone, Copy, Debug, PartialEq, Eq)]
pub struct BadTime(pub usize);

impl InstantTime {
    /// 2000-01-01T00:00:00.000, which is before every instant.
    pub const FIRST: InstantTime = InstantTime {
        since_1970: 946_684_800_000,
    };

    /// 9999-12-31T23:59:59.999.
    pub const LAST: InstantTime = InstantTime {
        since_1970: 253_402_300_799_999,
    };

    /// That many milliseconds after the beginning of 1970, or `None` where that is out of range.
    pub fn from_ms(ms: u64) -> Option<InstantTime>
        ensures { SomeIff result (IsTime ms) ms }
    {
        if ms < 946_684_800_000 {
            return None;
        }
        if ms > 253_402_300_799_999 {
            return None;
        }
        Some(InstantTime { since_1970: ms })
    }

    /// Milliseconds since the beginning of 1970.
    pub fn ms(self) -> u64
        ensures value { result ≡ self }
        ensures range { IsTime result }
    {
        self.since_1970
    }

    /// The time to draw after `last`, when the clock shows `now`: the clock's, or the one just above `last` where
    /// that is later.
    pub fn next_after(last: InstantTime, now: i64) -> Result<InstantTime, TimeOver>
        ensures { MatchResult result (λ time. (last < last_time) × (time ≡ time_after last now)) (λ _. last ≡ last_time) }
    {
        if last.since_1970 >= 253_402_300_799_999 {
            return Err(TimeOver);
        }
        let next = last.since_1970 + 1;
        if now <= 946_684_800_000 {
            return Ok(InstantTime { since_1970: next });
        }
        let shown = (now as u64).min(253_402_300_799_999);
        Ok(InstantTime {
            since_1970: next.max(shown),
        })
    }

    /// The time as seventeen digits, yyyyMMddHHmmssSSS in UTC.
    pub fn text(self) -> [u8; 17]
        ensures value { result ≡ time_text self }
        ensures utf8 { IsUtf8 result }
    {
        CivilTime::of_ms(self.since_1970).text()
    }

    /// The time that seventeen digits write, or the offset at which they go wrong.
    pub fn parse(text: &[u8]) -> Result<InstantTime, BadTime>
        ensures { MatchResult result
            (λ time. (goes_wrong text.now ≡ None) × (text.now ≡ time_text time))
            (λ bad. goes_wrong text.now ≡ Some bad.0) }
    {
        if let Some(offset) = first_no_digit(text) {
            return Err(BadTime(offset));
        }
        if text.len() != 17 {
            return Err(BadTime(text.len().min(17)));
        }
        let civil = CivilTime::of_digits(text);
        match civil.out_of_range() {
            Some(offset) => Err(BadTime(offset)),
            None => Ok(InstantTime {
                since_1970: civil.ms(),
            }),
        }
    }

    /// The time that seventeen digits write, if they write one.
    pub fn from_text(text: &[u8]) -> Option<InstantTime>
        ensures { result ≡ time_of text.now }
    {
        InstantTime::parse(text).ok()
    }
}

// The offset of the first byte that is no digit.
fn first_no_digit(text: &[u8]) -> Option<usize>
    ensures { result ≡ position (λ byte. not (is_digit byte)) text.now }
{
    text.iter().position(|byte| !byte.is_ascii_digit())
}
