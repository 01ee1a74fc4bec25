// A minute of a year as a date and a time of day.
use site::Site;
use std::fmt;
use std::fmt::{Display, Formatter, Write};

// How many days the last month has.
const DECEMBER: u32 = 31;

// The month from 1, and the day of it from 0.
#[derive(Clone, Copy)]
struct Date {
    month: u32,
    day: u32,
}

fn days_in(month: u32, year: u16) -> u32 {
    match month {
        2 => { if year % 4 == 0 { 29 } else { 28 } }
        4 | 6 | 9 | 11 => 30,
        _ => 31,
    }
}

// A day behind the year's last is one that December does not have.
fn date_of(day: u32, year: u16) -> Date {
    let mut left = day;
    for month in 1..12 {
        let days = days_in(month, year);
        if left < days {
            return Date { month, day: left };
        }
        left -= days;
    }
    Date {
        month: 12,
        day: left,
    }
}

// A minute of a year, shown as in `100 (2027-01-01 01:40)`; one that the year does not have is only a number.
#[derive(Clone, Copy)]
pub(crate) struct Moment {
    pub(crate) minute: u32,
    pub(crate) year: u16,
}

impl Display for Moment {
    fn fmt<W: Write>(&self, f: &mut Formatter<W>) -> fmt::Result {
        let Moment { minute, year } = *self;
        write!(f, "{minute}")?;
        let date = date_of(minute / Site::DAY_MINUTES, year);
        if DECEMBER <= date.day {
            return Ok(());
        }
        write!(f, " ({year}-{:02}-{:02} ", date.month, date.day + 1)?;
        write!(f, "{:02}:{:02})", minute / 60 % 24, minute % 60)
    }
}
