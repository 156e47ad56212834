//! The time before a line.
use std::fmt;
use std::time::Duration;

// How many seconds a day has.
const DAY: u64 = 86_400;

// How many days 400 years of the calendar have, 100 years without a leap day in the last one, and 4 years.
const DAYS_400: u64 = 146_097;

const DAYS_100: u64 = 36_524;

const DAYS_4: u64 = 1_461;

// How many days lie between the first of March of the year 0 and the first of January of 1970.
const DAYS_BEFORE: u64 = 719_468;

/// A time by the clock of the system.
#[derive(Clone, Copy, PartialEq, Eq)]
pub struct Stamp {
    /// How long after the beginning of 1970.
    pub since_1970: Duration,
}

// A day of the calendar of Gregory.
#[derive(Clone, Copy)]
struct Date {
    year: u64,
    month: u64,
    day: u64,
}

// The date of a day, which is given by its number from that of the beginning of 1970 on (ISO 8601). Years begin in March here, so that a
// leap day is the last of its year.
fn date_of(number: u64) -> Date {
    let days = number.saturating_add(DAYS_BEFORE);
    let (eras, day) = (days / DAYS_400, days % DAYS_400);
    // (the 400th year has its leap day as the last of all days)
    let leaps = (day / (DAYS_4 - 1)).saturating_add(day / (DAYS_400 - 1));
    let year = day.saturating_add(day / DAYS_100).saturating_sub(leaps) / 365;
    let leaps = (year / 4).saturating_sub(year / 100);
    let day = day.saturating_sub(year.saturating_mul(365).saturating_add(leaps));
    let month = day.saturating_mul(5).saturating_add(2) / 153;
    let before = month.saturating_mul(153).saturating_add(2) / 5;
    let day = day.saturating_sub(before).saturating_add(1);
    let year = eras.saturating_mul(400).saturating_add(year);
    if month < 10 {
        let month = month.saturating_add(3);
        Date { year, month, day }
    } else {
        let (year, month) = (year.saturating_add(1), month.saturating_sub(9));
        Date { year, month, day }
    }
}

/// As RFC 3339 has it, in UTC and with milliseconds: `2026-12-01T09:30:00.250Z`.
impl fmt::Display for Stamp {
    fn fmt<W: fmt::Write>(&self, f: &mut fmt::Formatter<W>) -> fmt::Result {
        let seconds = self.since_1970.as_secs();
        let millis = self.since_1970.subsec_millis();
        let Date { year, month, day } = date_of(seconds / DAY);
        let seconds = seconds % DAY;
        let (hour, minute, second) = (seconds / 3_600, seconds / 60 % 60, seconds % 60);
        write!(
            f,
            "{year:04}-{month:02}-{day:02}T{hour:02}:{minute:02}:{second:02}.{millis:03}Z"
        )
    }
}
