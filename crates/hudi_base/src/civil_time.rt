// What a calendar and a clock in UTC show, and the digits for it.
ghost use Rattle.std.specs.Prelude.{◌≡◌, ◌^◌, ◌<◌, ◌≤◌, length};
ghost use Rattle.std.specs.List.{All};
ghost use Rattle.std.specs.Char.{IsAsciiDigit};
ghost use Rattle.hudi_base.specs.Calendar.{IsCivil, civil_of, civil_ms};
ghost use Rattle.hudi_base.specs.InstantTime.{IsTime, civil_text, two_digits, digits_value, civil_at, field_out_of_range};

use jiff_core::civil::{self, Date};
use std::marker::Model;

const MS_OF_DAY: u64 = 86_400_000;

// A point of time as fields, each with as many digits as it is written with. Contracts see the record `Civil` of
// specs/Calendar.antt. Where digits gave the fields, they may be out of the calendar's ranges.
#[derive(Drop)]
pub(crate) struct CivilTime {
    year: u16,
    month: u8,
    day: u8,
    hour: u8,
    minute: u8,
    second: u8,
    milli: u16,
}

impl Model for CivilTime {
    ghost use Rattle.hudi_base.specs.Calendar.{Civil, IsWritable};

    ghost Value = { Civil };

    ghost view = { λ c. record { year = c.year; month = c.month; day = c.day; hour = c.hour; minute = c.minute; second = c.second; milli = c.milli } };

    ghost invariant = { λ c. IsWritable (record { year = c.year; month = c.month; day = c.day; hour = c.hour; minute = c.minute; second = c.second; milli = c.milli }) };
}

impl CivilTime {
    // What is shown that many milliseconds after the beginning of 1970.
    pub(crate) fn of_ms(ms: u64) -> CivilTime
        requires { IsTime ms }
        ensures { result ≡ civil_of ms }
    {
        let rest = ms % MS_OF_DAY;
        match Date::from_unix_epoch_day((ms / MS_OF_DAY) as i64) {
            Ok(date) => CivilTime {
                year: date.year.unsigned_abs(),
                month: date.month,
                day: date.day,
                hour: (rest / 3_600_000) as u8,
                minute: (rest / 60_000 % 60) as u8,
                second: (rest / 1000 % 60) as u8,
                milli: (rest % 1000) as u16,
            },
            Err(_) => unreachable!(),
        }
    }

    // Milliseconds since the beginning of 1970.
    pub(crate) fn ms(&self) -> u64
        requires { IsCivil self.now }
        ensures { result ≡ civil_ms self.now }
    {
        match Date::new(self.year as i16, self.month as i8, self.day as i8) {
            Ok(date) => {
                let day = date.to_unix_epoch_day().unsigned_abs() as u64;
                let minutes = self.hour as u64 * 60 + self.minute as u64;
                day * MS_OF_DAY + minutes * 60_000 + self.second as u64 * 1000 + self.milli as u64
            }
            Err(_) => unreachable!(),
        }
    }

    // The fields as seventeen digits.
    pub(crate) fn text(&self) -> [u8; 17]
        ensures { result ≡ civil_text self.now }
    {
        let [y1, y2] = pair((self.year / 100) as u8);
        let [y3, y4] = pair((self.year % 100) as u8);
        let [m1, m2] = pair(self.month);
        let [d1, d2] = pair(self.day);
        let [h1, h2] = pair(self.hour);
        let [n1, n2] = pair(self.minute);
        let [s1, s2] = pair(self.second);
        let hundreds = b'0' + (self.milli / 100) as u8;
        let [z2, z3] = pair((self.milli % 100) as u8);
        [
            y1, y2, y3, y4, m1, m2, d1, d2, h1, h2, n1, n2, s1, s2, hundreds, z2, z3,
        ]
    }

    // The fields that seventeen digits write.
    pub(crate) fn of_digits(text: &[u8]) -> CivilTime
        requires long { length text.now ≡ 17 }
        requires digits { All IsAsciiDigit text.now }
        ensures { result ≡ civil_at text.now }
    {
        CivilTime {
            year: number(&text[0..4]),
            month: number(&text[4..6]) as u8,
            day: number(&text[6..8]) as u8,
            hour: number(&text[8..10]) as u8,
            minute: number(&text[10..12]) as u8,
            second: number(&text[12..14]) as u8,
            milli: number(&text[14..17]),
        }
    }

    // The offset of the first field that is out of its range.
    pub(crate) fn out_of_range(&self) -> Option<usize>
        ensures { result ≡ field_out_of_range self.now }
    {
        if self.year < 2000 {
            return Some(0);
        }
        if self.month == 0 || self.month > 12 {
            return Some(4);
        }
        if self.day == 0 || self.day > civil::days_in_month(self.year as i16, self.month) {
            return Some(6);
        }
        if self.hour > 23 {
            return Some(8);
        }
        if self.minute > 59 {
            return Some(10);
        }
        if self.second > 59 {
            return Some(12);
        }
        None
    }
}

// A number below a hundred as two digits.
fn pair(n: u8) -> [u8; 2]
    requires { n < 100 }
    ensures { result ≡ two_digits n }
{
    [b'0' + n / 10, b'0' + n % 10]
}

// The number that up to four digits write.
fn number(digits: &[u8]) -> u16
    requires few { length digits.now ≤ 4 }
    requires digits { All IsAsciiDigit digits.now }
    ensures value { result ≡ digits_value 0 digits.now }
    ensures bound { result < 10 ^ length digits.now }
{
    let mut number: u16 = 0;
    for digit in digits {
        number = number * 10 + (*digit - b'0') as u16;
    }
    number
}
