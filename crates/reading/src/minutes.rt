// Reading a minute record alone, without a site, from any bytes.
ghost use Rattle.std.specs.Prelude.{◌≡◌};
ghost use Rattle.minute.specs.Record.{minute_of, read_minute};

use minute::{Gas, Minute, Readings};
use refusals::Refusal;

// The fields, or the first of the refusals 1, 2 and 12 to 18, with 13 for a minute that no year has.
pub fn read_minute(bytes: &[u8]) -> Result<Minute, Refusal>
    ensures { result ≡ read_minute bytes.now }
{
    records::head(bytes, Minute::BYTES, Minute::VERSION)?;
    let minute = minute_in(bytes);
    minute.alone()?;
    Ok(minute)
}

fn gas_in(b: &[u8]) -> Gas
    ensures { result ≡ (minute_of b.now).gas }
{
    Gas {
        ch4: numbers::at(b, 14),
        co: numbers::at(b, 18),
        co2: numbers::at(b, 22),
        o2: numbers::at(b, 26),
        h2: numbers::at(b, 30),
        h2s: numbers::at(b, 34),
        nh3: numbers::at(b, 38),
        n2: numbers::at(b, 42),
    }
}

// The fields of a record's bytes, not yet examined.
pub fn minute_in(b: &[u8]) -> Minute
    ensures { result ≡ minute_of b.now }
{
    let exhaust = Readings {
        oxygen: numbers::at(b, 46),
        methane: numbers::at(b, 50),
    };
    Minute {
        number: numbers::at(b, 3),
        flags: numbers::at(b, 7),
        temperature: numbers::at(b, 8),
        litres: numbers::at(b, 10),
        gas: gas_in(b),
        exhaust,
    }
}
