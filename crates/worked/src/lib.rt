// The worked examples of R67 in docs/RULES.md, in one table.
#![tactic(auto)]

ghost use Rattle.std.specs.Prelude.{◌≡◌};
ghost use Rattle.worked.specs.Table.{flare, gas, reading, answers, line, table};

use minute::{Gas, Minute, Readings};
use refusals::Refusal;
use site::{Flows, Site, Temperatures};
use tool06::Figures;

// A minute at a site, with maintenance in time, and what it answers.
#[derive(Clone, Copy)]
pub struct Example {
    pub site: Site,
    pub minute: Minute,
    pub answer: Result<Figures, Refusal>,
}

// A flare 1,000 mm wide.
fn flare(method: u8, height: u32) -> Site
    ensures { result ≡ flare method height }
{
    Site {
        method: method,
        year: 2027,
        gwp: 28,
        height: height,
        diameter: 1_000,
        temperature: Temperatures {
            lowest: 5_000,
            highest: 12_000,
        },
        flow: Flows {
            lowest: 1,
            highest: Site::MOST_FLOW,
        },
        days: 365,
    }
}

// In ppm.
fn gas(ch4: u32, co2: u32, o2: u32, n2: u32) -> Gas
    ensures { result ≡ gas ch4 co2 o2 n2 }
{
    Gas {
        ch4: ch4,
        co: 0,
        co2: co2,
        o2: o2,
        h2: 0,
        h2s: 0,
        nh3: 0,
        n2: n2,
    }
}

// At 800 degrees, inside the specification, with exhaust oxygen of 90,000 ppm.
fn reading(flags: u8, litres: u32, gas: Gas, methane: u32) -> Minute
    ensures { result ≡ reading flags litres gas methane }
{
    let exhaust = Readings {
        oxygen: 90_000,
        methane: methane,
    };
    Minute {
        number: 0,
        flags: flags,
        temperature: 8_000,
        litres: litres,
        gas: gas,
        exhaust: exhaust,
    }
}

fn answers(rule: u8, fed: u64, emitted: u64, destroyed: u64) -> Result<Figures, Refusal>
    ensures { result ≡ answers rule fed emitted destroyed }
{
    Ok(Figures {
        rule: rule,
        fed: fed,
        emitted: emitted,
        destroyed: destroyed,
    })
}

fn line(site: Site, minute: Minute, answer: Result<Figures, Refusal>) -> Example
    ensures { result ≡ line site minute answer }
{
    Example {
        site: site,
        minute: minute,
        answer: answer,
    }
}

// The lines of R67, in its order.
pub fn examples() -> [Example; 12]
    ensures { result ≡ table }
{
    let open = flare(Site::DEFAULT, 2_000);
    let low_default = flare(Site::DEFAULT, 10_000);
    let tall_default = flare(Site::DEFAULT, 10_001);
    let low_measured = flare(Site::MEASURED, 10_000);
    let tall_measured = flare(Site::MEASURED, 10_001);
    let g = gas(600_000, 400_000, 0, 0);
    let lit = reading(Minute::FLAGS, 1_000, g, 100);
    let unlit = reading(Minute::TEMPERATURE + Minute::EXHAUST, 1_000, g, 100);
    let litre = reading(Minute::FLAGS, 1, gas(500_001, 0, 0, 499_999), 100);
    let f40000 = reading(Minute::FLAGS, 1_000, g, 40_000);
    let f50000 = reading(Minute::FLAGS, 1_000, g, 50_000);
    let even = reading(Minute::FLAGS, 1_000, gas(100_000, 0, 200_000, 700_000), 100);
    let airy = reading(Minute::FLAGS, 1_000, gas(100_000, 0, 200_001, 699_999), 100);
    [
        line(open, lit, answers(Figures::OPEN, 429_600, 214_800, 214_800)),
        line(open, unlit, answers(Figures::NO_FLAME, 429_600, 429_600, 0)),
        line(
            tall_default,
            lit,
            answers(Figures::DEFAULT, 429_600, 42_960, 386_640),
        ),
        line(
            low_default,
            lit,
            answers(Figures::DEFAULT, 429_600, 85_920, 343_680),
        ),
        line(open, litre, answers(Figures::OPEN, 359, 180, 179)),
        line(tall_default, litre, answers(Figures::DEFAULT, 359, 36, 322)),
        line(
            tall_measured,
            lit,
            answers(Figures::MEASURED, 429_600, 965, 428_635),
        ),
        line(
            low_measured,
            lit,
            answers(Figures::MEASURED, 429_600, 43_925, 385_675),
        ),
        line(
            tall_measured,
            f50000,
            answers(Figures::MEASURED, 429_600, 429_600, 0),
        ),
        line(
            low_measured,
            f40000,
            answers(Figures::MEASURED, 429_600, 428_960, 640),
        ),
        line(
            tall_measured,
            even,
            answers(Figures::MEASURED, 71_600, 140, 71_460),
        ),
        line(tall_measured, airy, Err(Refusal::Oxygen)),
    ]
}
