// The site in words, and why one is refused.
use crate::say::{Millimetres, Tenths, say};
use refusals::Refusal;
use site::Site;
use tool06::Class;

fn name_of(class: Class) -> &'static str {
    match class {
        Class::Open => "open",
        Class::Low => "low",
        Class::Tall => "tall",
    }
}

fn enclosure(rt: &impl Eprint, site: Site) {
    let class = name_of(rules::class_of(site));
    let height = Millimetres(site.height);
    let diameter = Millimetres(site.diameter);
    say(
        rt,
        format_args!("flare: site: {class} flare ({height} m on {diameter} m), "),
    );
}

fn method(rt: &impl Eprint, method: u8, days: u16) {
    match method {
        Site::DEFAULT => say(rt, "default method"),
        Site::MEASURED => say(rt, "measured each minute"),
        _ => say(rt, format_args!("method {method}")),
    }
    if 0 < days {
        say(rt, format_args!(", {days} days between maintenance"));
    }
}

fn specification(rt: &impl Eprint, site: Site) {
    let temperature = site.temperature;
    let flow = site.flow;
    let coldest = Tenths(temperature.lowest);
    let hottest = Tenths(temperature.highest);
    say(rt, format_args!(", {coldest} to {hottest} degrees"));
    say(
        rt,
        format_args!(", {} to {} litres a minute\n", flow.lowest, flow.highest),
    );
}

// How the site was understood, so that a wrong unit or a field in another's place shows.
pub fn understood(rt: &impl Eprint, site: Site) {
    enclosure(rt, site);
    method(rt, site.method, site.days);
    say(rt, format_args!(", {}, GWP {}", site.year, site.gwp));
    specification(rt, site);
}

// What a measured flare's total is worth without maintenance days.
pub fn overdue(rt: &impl Eprint, minutes: u32) {
    say(
        rt,
        format_args!(
            "flare: THIS TOTAL IS NOT THE SITE'S. A measured flare was judged without maintenance days; minutes that count as overdue (rule 7): {minutes}; examples/desk.py takes the days (README.md, A measured flare)\n"
        ),
    );
}

// Whether a byte begins a text: printable, a line's end, or a mark of how the text is encoded.
fn begins_text(first: u8) -> bool {
    matches!(first, 9..=13 | 32..=126 | 239 | 254 | 255)
}

// What the input is that has no site.
fn without_site(bytes: &[u8]) -> &'static str {
    match bytes.first() {
        None => "is empty",
        Some(first) if begins_text(*first) => {
            "looks like text, which examples/records.c makes into records"
        }
        Some(_) if bytes.len() < Site::BYTES => "ends within the site record",
        Some(_) => "does not begin with a site record",
    }
}

fn no_site(rt: &impl Eprint, bytes: &[u8]) {
    let what = without_site(bytes);
    say(
        rt,
        format_args!(
            "1 LENGTH: the input {what}; a record file begins with a site record of 30 bytes, the first three 00 1c 01 (README.md, The records)"
        ),
    );
}

// What is wrong with a field of a site, for each refusal that one can have.
fn wrong_field(refusal: Refusal) -> Option<&'static str> {
    match refusal {
        Refusal::Version => Some(
            "2 VERSION: the third byte is not 1; export the records in version 1",
        ),
        Refusal::Method => Some("3 METHOD: 0 is the default method and 1 is measured each minute"),
        Refusal::Year => Some("4 YEAR: 2000 to 2099"),
        Refusal::Gwp => Some("5 GWP: 1 to 100"),
        Refusal::Size => Some("6 SIZE: height up to 100000 mm, diameter 1 to 100000 mm"),
        Refusal::Spec => Some(
            "7 SPEC: temperatures of -50.0 to 1500.0 degrees and flows of up to 100000 litres, the lowest not above the highest",
        ),
        Refusal::Open => Some(
            "8 OPEN: a flare at most twice as high as wide is open, and an open one cannot be measured",
        ),
        Refusal::Schedule => Some(
            "9 SCHEDULE: days between maintenance up to 3660, and when measured at least 1",
        ),
        _ => None,
    }
}

// Why the site is refused, and from METHOD on how it was understood.
pub fn refused_site(rt: &impl Eprint, refusal: Refusal, bytes: &[u8]) {
    if !matches!(refusal, Refusal::Length | Refusal::Version) {
        understood(rt, reading::site_in(bytes));
    }
    say(rt, "flare: the site is refused, ");
    match (refusal, wrong_field(refusal)) {
        (Refusal::Length, _) => no_site(rt, bytes),
        (_, Some(words)) => say(rt, words),
        (_, None) => say(rt, refusal.number()),
    }
    say(rt, "\n");
}
