// The minute record.
#![tactic(auto)]

mod gas;

ghost use Rattle.std.specs.Prelude.{◌≡◌};
ghost use Rattle.refusals.specs.Tables.{first_of};
ghost use Rattle.minute.specs.Rules.{is_on, temperature_wrong, exhaust_wrong, minute_lines, alone_lines};

pub use gas::Gas;
use refusals::{Refusal, Verdict};

// Of the exhaust: oxygen in ppm, methane in mg/m3.
#[derive(Clone, Copy)]
pub struct Readings {
    pub oxygen: u32,
    pub methane: u32,
}

// The number is the minute of the year, from 0; the temperature is in tenths of a degree Celsius.
#[derive(Clone, Copy)]
pub struct Minute {
    pub number: u32,
    pub flags: u8,
    pub temperature: i16,
    pub litres: u32,
    pub gas: Gas,
    pub exhaust: Readings,
}

impl Minute {
    pub const BYTES: usize = 54;

    // Of the records of one day.
    pub const DAY_BYTES: usize = 77_760;

    pub const VERSION: u8 = 1;

    // The flags' bits: flame seen, temperature present, exhaust readings present, and all of them.
    pub const FLAME: u8 = 1;

    pub const TEMPERATURE: u8 = 2;

    pub const EXHAUST: u8 = 4;

    pub const FLAGS: u8 = Minute::FLAME + Minute::TEMPERATURE + Minute::EXHAUST;

    // Of a leap year.
    pub const MINUTES: u32 = 527_040;

    pub const MOST_LITRES: u32 = 100_000;

    pub const COLDEST: i16 = -500;

    pub const HOTTEST: i16 = 15_000;

    pub const MOST_OXYGEN: u32 = 209_999;

    pub const MOST_METHANE: u32 = 50_000;

    // Whether a flag is on: FLAME, TEMPERATURE or EXHAUST. A number and no enum: it is promised for every one.
    pub fn has(self, flag: u8) -> bool
        ensures { result ≡ is_on flag self }
    {
        if flag == 0 {
            return false;
        }
        self.flags / flag % 2 == 1
    }

    fn temperature_wrong(self) -> bool
        ensures { result ≡ temperature_wrong self }
    {
        let present = self.has(Minute::TEMPERATURE);
        (present & ((self.temperature < Minute::COLDEST) | (Minute::HOTTEST < self.temperature)))
            | (!present & (self.temperature != 0))
    }

    fn exhaust_wrong(self) -> bool
        ensures { result ≡ exhaust_wrong self }
    {
        let present = self.has(Minute::EXHAUST);
        let exhaust = self.exhaust;
        (present
            & ((Minute::MOST_OXYGEN < exhaust.oxygen) | (Minute::MOST_METHANE < exhaust.methane)))
            | (!present & ((0 < exhaust.oxygen) | (0 < exhaust.methane)))
    }

    // The first of the refusals 12 to 18 of the fields, with 13 where the minute is out of order.
    pub fn verdict(self, disordered: bool) -> Result<(), Refusal>
        ensures { result ≡ first_of (minute_lines disordered self) }
    {
        let gas = self.gas;
        let litres = self.litres;
        let burnt = 0 < litres;
        Ok(())
            .also(Minute::FLAGS < self.flags, Refusal::Flags)
            .also(disordered, Refusal::Order)
            .also(Minute::MOST_LITRES < litres, Refusal::Flow)
            .also(burnt & gas.composition_wrong(), Refusal::Composition)
            .also(burnt & gas.methane_wrong(), Refusal::Methane)
            .also(self.temperature_wrong(), Refusal::Temperature)
            .also(self.exhaust_wrong(), Refusal::Exhaust)
    }

    // The verdict of a minute alone, which is out of order where no year has it.
    pub fn alone(self) -> Result<(), Refusal>
        ensures { result ≡ first_of (alone_lines self) }
    {
        self.verdict(Minute::MINUTES <= self.number)
    }
}
