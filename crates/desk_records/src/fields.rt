// The calls that read a record: `site`, `minute` and `class`.
use answers::Answers;
use minute::Minute;
use refusals::Refusal;
use site::Site;
use std::fmt::Write;
use tool06::Class;

fn put_site(out: &mut Answers, site: Site) {
    let _ = write!(
        out,
        "site method {} year {} gwp {} height {} diameter {}",
        site.method, site.year, site.gwp, site.height, site.diameter,
    );
    let temperature = site.temperature;
    let flow = site.flow;
    let _ = write!(
        out,
        " temperatures {} {} flows {} {} days {}\n",
        temperature.lowest, temperature.highest, flow.lowest, flow.highest, site.days,
    );
}

// What was read, or why it is refused.
fn put<T: Drop, F: FnOnce(&mut Answers, T)>(out: &mut Answers, read: Result<T, Refusal>, field: F)
    requires { F.IsAlwaysCallable field }
{
    match read {
        Ok(fields) => field(out, fields),
        Err(refusal) => out.refused(refusal),
    }
}

pub(crate) fn site(record: &[u8], out: &mut Answers) {
    put(out, reading::read_site(record), put_site);
}

fn put_minute(out: &mut Answers, minute: Minute) {
    let _ = write!(
        out,
        "minute {} flags {} temperature {} litres {} gas",
        minute.number, minute.flags, minute.temperature, minute.litres,
    );
    let gas = minute.gas;
    out.each(&[
        gas.ch4, gas.co, gas.co2, gas.o2, gas.h2, gas.h2s, gas.nh3, gas.n2,
    ]);
    let exhaust = minute.exhaust;
    let _ = write!(out, " exhaust {} {}\n", exhaust.oxygen, exhaust.methane);
}

pub(crate) fn minute(record: &[u8], out: &mut Answers) {
    put(out, reading::read_minute(record), put_minute);
}

fn put_class(out: &mut Answers, class: Class) {
    match class {
        Class::Open => out.text(b"open\n"),
        Class::Low => out.text(b"low\n"),
        Class::Tall => out.text(b"tall\n"),
    }
}

pub(crate) fn class(record: &[u8], out: &mut Answers) {
    put(
        out,
        reading::read_site(record).map(|site| rules::class_of(site)),
        put_class,
    );
}
