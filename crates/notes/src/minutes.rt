// Why a minute is refused.
use crate::moment::Moment;
use crate::say::{Tenths, say};
use minute::Minute;
use refusals::Refusal;
use site::Site;

// Where the fields stand that are told. Minute's own reading is left to the program's loop, which is faster as its only caller.
const NUMBER: usize = 3;

const FLAGS: usize = 7;

const TEMPERATURE: usize = 8;

const LITRES: usize = 10;

const CH4: usize = 14;

// The eight fractions of the gas.
const FRACTIONS: [usize; 8] = [CH4, 18, 22, 26, 30, 34, 38, 42];

const OXYGEN: usize = 46;

const METHANE: usize = 50;

// Where so many bytes are no minute record.
fn no_minute(rt: &impl Eprint, bytes: usize, expected: Moment) {
    say(
        rt,
        format_args!("flare: where minute {expected} was expected "),
    );
    if bytes < Minute::BYTES {
        say(
            rt,
            format_args!(
                "the input ends within a record, bytes of it: {bytes}: 1 LENGTH; was the file copied whole?\n"
            ),
        );
    } else {
        say(
            rt,
            "stands no minute record, which begins with 00 34 01: 1 LENGTH; was something put in or left out before it?\n",
        );
    }
}

fn other_version(rt: &impl Eprint, expected: Moment) {
    say(
        rt,
        format_args!(
            "flare: where minute {expected} was expected stands a record of another version: 2 VERSION; export the records in version 1\n"
        ),
    );
}

// The minutes are those that the year has.
fn out_of_order(rt: &impl Eprint, came: Moment, expected: Moment, minutes: u32) {
    say(
        rt,
        format_args!("flare: minute {expected} was expected, and minute {came} came"),
    );
    if came.minute < expected.minute {
        say(
            rt,
            ", which is in already: 13 ORDER; is a minute doubled or out of order?\n",
        );
    } else if minutes <= came.minute {
        say(
            rt,
            ", which the year does not have: 13 ORDER; are minutes counted from 0?\n",
        );
    } else {
        let missing = came.minute - expected.minute;
        say(
            rt,
            format_args!(": 13 ORDER; minutes missing before it: {missing}\n"),
        );
    }
}

fn number(record: &[u8], at: usize) -> u32 {
    numbers::at(record, at)
}

fn sum_of_fractions(record: &[u8]) -> u64 {
    let mut sum: u64 = 0;
    for at in FRACTIONS {
        sum += number(record, at) as u64;
    }
    sum
}

fn wrong_gas(rt: &impl Eprint, refusal: Refusal, record: &[u8]) {
    match refusal {
        Refusal::Flow => say(
            rt,
            format_args!(
                "14 FLOW: {} litres; they must be at most 100000",
                number(record, LITRES)
            ),
        ),
        Refusal::Composition => say(
            rt,
            format_args!(
                "15 COMPOSITION: the eight fractions add up to {} ppm, not to 1000000",
                sum_of_fractions(record)
            ),
        ),
        Refusal::Methane => say(
            rt,
            format_args!(
                "16 METHANE: CH4 is {} ppm; it must not be 0, nor below CO, H2, H2S or NH3",
                number(record, CH4)
            ),
        ),
        _ => say(
            rt,
            "19 OXYGEN: more oxygen in the gas than the equations can take",
        ),
    }
}

fn wrong_reading(rt: &impl Eprint, refusal: Refusal, record: &[u8]) {
    match refusal {
        Refusal::Flags => say(
            rt,
            format_args!(
                "12 FLAGS: {}; they must be the sum of 1 flame seen, 2 temperature present, 4 exhaust readings present",
                numbers::at::<u8>(record, FLAGS)
            ),
        ),
        Refusal::Temperature => say(
            rt,
            format_args!(
                "17 TEMPERATURE: {} degrees; it must be -50.0 to 1500.0, and 0 where its flag is off",
                Tenths(numbers::at(record, TEMPERATURE))
            ),
        ),
        Refusal::Exhaust => say(
            rt,
            format_args!(
                "18 EXHAUST: oxygen {} ppm, methane {} mg/m3; they must be at most 209999 and 50000, and 0 where their flag is off",
                number(record, OXYGEN),
                number(record, METHANE)
            ),
        ),
        _ => wrong_gas(rt, refusal, record),
    }
}

// Which minute a record was refused for.
fn which(rt: &impl Eprint, came: Moment, expected: Moment) {
    if came.minute == expected.minute {
        say(rt, format_args!("flare: minute {expected} is refused, "));
    } else {
        say(
            rt,
            format_args!(
                "flare: minute {expected} was expected, and minute {came} came, which is refused, "
            ),
        );
    }
}

// The input went on after the year's last minute.
fn full(rt: &impl Eprint, bytes: usize, expected: Moment) {
    let Moment { minute, year } = expected;
    say(
        rt,
        format_args!("flare: the input goes on after the last minute of {year}"),
    );
    if bytes < Minute::BYTES {
        say(
            rt,
            format_args!(
                " by a part of a record, bytes: {bytes}: 11 FULL; was something put behind the year?"
            ),
        );
    } else {
        say(rt, ": 11 FULL; is the site's year the minutes' year?");
    }
    say(
        rt,
        format_args!(" The total is that of the first {minute} minutes alone\n"),
    );
}

// Why the record is refused with which these bytes begin, where a minute was expected.
pub fn refused_minute(
    rt: &impl Eprint,
    refusal: Refusal,
    record: &[u8],
    expected: u32,
    site: Site,
) {
    let year = site.year;
    let came = Moment {
        minute: number(record, NUMBER),
        year,
    };
    let expected = Moment {
        minute: expected,
        year,
    };
    match refusal {
        Refusal::Length => no_minute(rt, record.len(), expected),
        Refusal::Version => other_version(rt, expected),
        Refusal::Full => full(rt, record.len(), expected),
        Refusal::Order => out_of_order(rt, came, expected, site.minutes()),
        _ => {
            which(rt, came, expected);
            wrong_reading(rt, refusal, record);
            say(rt, "\n");
        }
    }
}
