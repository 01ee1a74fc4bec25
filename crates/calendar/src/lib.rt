// The month of a day.
#![tactic(auto)]

mod table;

ghost use Rattle.std.specs.Prelude.{◌≡◌};
ghost use Rattle.site.specs.Rules.{is_leap};
ghost use Rattle.calendar.specs.Calendar.{entry_in, month_of};

use table::TABLE;

// The entry of 29 February, counted from 0.
const LEAP_DAY: u32 = 59;

// A day's entry in the table, in which an ordinary year skips that of 29 February.
fn entry_of(day: u32, year: u16) -> usize
    ensures { result ≡ entry_in (is_leap year) day }
{
    if (year % 4 == 0) | (day < LEAP_DAY) {
        day as usize
    } else {
        day as usize + 1
    }
}

// The month of a day of a year, from 1 to 12; past the table it is none, and 0.
pub fn month_of(day: u32, year: u16) -> u8
    ensures { result ≡ month_of year day }
{
    let entry = entry_of(day, year);
    if entry < TABLE.len() { TABLE[entry] } else { 0 }
}
