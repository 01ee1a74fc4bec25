// The calls that write into a lent buffer: `write-site` and `write-minute`.
use answers::Answers;
use forms::take::Given;
use minute::{Gas, Minute, Readings};
use refusals::Refusal;
use site::{Limits, Site};
use std::fmt::Write;

// What a buffer holds before.
pub const BEFORE: u8 = 0xa5;

// The largest buffer that a call can ask for.
pub const LARGEST: usize = 65_535;

fn put_verdict(out: &mut Answers, verdict: Result<(), Refusal>) {
    let _ = match verdict {
        Ok(()) => write!(out, "wrote"),
        Err(refusal) => write!(out, "refused {}", refusal.number()),
    };
}

// What a buffer holds afterwards.
pub fn put_room(out: &mut Answers, room: &[u8]) {
    out.text(b" ");
    out.hex(room);
    out.text(b"\n");
}

fn site_of(given: &Given) -> Site {
    let temperature = Limits {
        lowest: given.signed(5),
        highest: given.signed(6),
    };
    let flow = Limits {
        lowest: given.number(7),
        highest: given.number(8),
    };
    Site {
        method: given.number(0),
        year: given.number(1),
        gwp: given.number(2),
        height: given.number(3),
        diameter: given.number(4),
        temperature,
        flow,
        days: given.number(9),
    }
}

pub(crate) fn write_site(given: &Given, out: &mut Answers) {
    let mut space = [BEFORE; LARGEST];
    let room = &mut space[..given.number::<u16>(10) as usize];
    put_verdict(out, writing::write_site(site_of(given), room));
    put_room(out, room);
}

fn gas_of(given: &Given) -> Gas {
    Gas {
        ch4: given.number(4),
        co: given.number(5),
        co2: given.number(6),
        o2: given.number(7),
        h2: given.number(8),
        h2s: given.number(9),
        nh3: given.number(10),
        n2: given.number(11),
    }
}

fn minute_of(given: &Given) -> Minute {
    let exhaust = Readings {
        oxygen: given.number(12),
        methane: given.number(13),
    };
    Minute {
        number: given.number(0),
        flags: given.number(1),
        temperature: given.signed(2),
        litres: given.number(3),
        gas: gas_of(given),
        exhaust,
    }
}

pub(crate) fn write_minute(given: &Given, out: &mut Answers) {
    let mut space = [BEFORE; LARGEST];
    let room = &mut space[..given.number::<u16>(14) as usize];
    put_verdict(out, writing::write_minute(minute_of(given), room));
    put_room(out, room);
}
