// Writing a minute record into any buffer.
ghost use Rattle.std.specs.Prelude.{◌≡◌, length, take, drop};
ghost use Rattle.exact.specs.scaffold.Filled.{filled};
ghost use Rattle.records.specs.House.{written};
ghost use Rattle.minute.specs.Record.{minute_layout, minute_form, minute_bytes, write_minute};

use minute::Minute;
use refusals::{Refusal, Verdict};

// Puts the record into the buffer, or answers 22 or the first of the refusals 12 to 18 and leaves the buffer as it was.
pub fn write_minute(minute: Minute, out: &mut [u8]) -> Result<(), Refusal>
    ensures { (result ≡ write_minute minute out.old) × (out.new ≡ written out.old (minute_bytes minute) result) }
{
    Ok(())
        .also(out.len() != Minute::BYTES, Refusal::Buffer)
        .then(minute.alone())?;
    fill(minute, out);
    Ok(())
}

fn fill(minute: Minute, out: &mut [u8])
    requires { length out.old ≡ minute_form.size }
    ensures { out.new ≡ minute_bytes minute }
{
    records::put_head(out, (Minute::BYTES - 2) as u16, Minute::VERSION);
    numbers::put(out, 3, minute.number);
    numbers::put(out, 7, minute.flags);
    numbers::put(out, 8, minute.temperature);
    numbers::put(out, 10, minute.litres);
    fill_gas(minute, out);
    fill_exhaust(minute, out);
}

fn fill_gas(minute: Minute, out: &mut [u8])
    ensures { out.new ≡ filled (take 8 (drop 4 minute_layout)) minute out.old }
{
    let gas = minute.gas;
    numbers::put(out, 14, gas.ch4);
    numbers::put(out, 18, gas.co);
    numbers::put(out, 22, gas.co2);
    numbers::put(out, 26, gas.o2);
    numbers::put(out, 30, gas.h2);
    numbers::put(out, 34, gas.h2s);
    numbers::put(out, 38, gas.nh3);
    numbers::put(out, 42, gas.n2);
}

fn fill_exhaust(minute: Minute, out: &mut [u8])
    ensures { out.new ≡ filled (drop 12 minute_layout) minute out.old }
{
    let exhaust = minute.exhaust;
    numbers::put(out, 46, exhaust.oxygen);
    numbers::put(out, 50, exhaust.methane);
}
