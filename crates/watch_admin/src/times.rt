//! Moments as texts, as RFC 3339 has them, in UTC and with milliseconds.

use std::fmt;
use std::fmt::Display;

/// A moment, by how many milliseconds it is after the begin of 1970 in UTC.
#[derive(Clone, Copy, PartialEq, Eq)]
pub struct UtcTime(pub u64);

const DAY_MS: u64 = 86_400_000;

// The last year that four digits have.
const LAST_YEAR: u64 = 9_999;

const MONTHS: [u64; 12] = [31, 28, 31, 30, 31, 30, 31, 31, 30, 31, 30, 31];

fn is_leap(year: u64) -> bool {
    (year % 4 == 0 && year % 100 != 0) || year % 400 == 0
}

fn days_of_year(year: u64) -> u64 {
    if is_leap(year) { 366 } else { 365 }
}

fn days_of_month(year: u64, month: usize) -> u64 {
    let days = MONTHS.get(month).copied().unwrap_or(31);
    if month == 1 && is_leap(year) {
        days + 1
    } else {
        days
    }
}

// The year of a day, counted from the begin of 1970, and which day of that it is, the first being 0.
fn year_of(day: u64) -> (u64, u64) {
    let mut left = day;
    for year in 1970..LAST_YEAR {
        let days = days_of_year(year);
        if left < days {
            return (year, left);
        }
        left -= days;
    }
    (LAST_YEAR, left)
}

// The month of a day of a year, and which day of that it is. The first ones are 0.
fn month_of(year: u64, day: u64) -> (usize, u64) {
    let mut left = day;
    for month in 0..11 {
        let days = days_of_month(year, month);
        if left < days {
            return (month, left);
        }
        left -= days;
    }
    (11, left)
}

impl Display for UtcTime {
    fn fmt<W: fmt::Write>(&self, f: &mut fmt::Formatter<W>) -> fmt::Result {
        let (year, day) = year_of(self.0 / DAY_MS);
        let (month, day) = month_of(year, day);
        let (month, day) = ((month as u64).saturating_add(1), day.min(30) + 1);
        write!(f, "{year:04}-{month:02}-{day:02}T")?;
        let (minutes, millis) = (self.0 % DAY_MS / 60_000, self.0 % 60_000);
        write!(f, "{:02}:{:02}:", minutes / 60, minutes % 60)?;
        write!(f, "{:02}.{:03}Z", millis / 1000, millis % 1000)
    }
}
