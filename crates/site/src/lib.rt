// The site record.
#![tactic(auto)]

mod limits;

ghost use Rattle.std.specs.Prelude.{◌≡◌};
ghost use Rattle.refusals.specs.Tables.{first_of};
ghost use Rattle.site.specs.Rules.{is_open, year_minutes, site_lines};

pub use limits::Limits;
use refusals::Refusal;

// Tenths of a degree Celsius.
pub type Temperatures = Limits<i16>;

// Litres a minute.
pub type Flows = Limits<u32>;

// Height and diameter are in mm; days is how many are allowed between maintenance.
#[derive(Clone, Copy)]
pub struct Site {
    pub method: u8,
    pub year: u16,
    pub gwp: u16,
    pub height: u32,
    pub diameter: u32,
    pub temperature: Temperatures,
    pub flow: Flows,
    pub days: u16,
}

impl Site {
    pub const BYTES: usize = 30;

    pub const VERSION: u8 = 1;

    pub const DEFAULT: u8 = 0;

    pub const MEASURED: u8 = 1;

    pub const FIRST_YEAR: u16 = 2000;

    pub const LAST_YEAR: u16 = 2099;

    pub const LEAST_GWP: u16 = 1;

    pub const MOST_GWP: u16 = 100;

    pub const MOST_HEIGHT: u32 = 100_000;

    pub const LEAST_DIAMETER: u32 = 1;

    pub const MOST_DIAMETER: u32 = 100_000;

    pub const COLDEST: i16 = -500;

    pub const HOTTEST: i16 = 15_000;

    pub const TEMPERATURES: Temperatures = Limits {
        lowest: Site::COLDEST,
        highest: Site::HOTTEST,
    };

    pub const MOST_FLOW: u32 = 100_000;

    pub const FLOWS: Flows = Limits {
        lowest: 0,
        highest: Site::MOST_FLOW,
    };

    pub const LEAST_DAYS_MEASURED: u16 = 1;

    pub const MOST_DAYS: u16 = 3_660;

    // Days since maintenance where there was none.
    pub const NEVER: u16 = 65_535;

    // An enclosure of at most so many diameters is open, and one of at most so many is low.
    pub const OPEN_DIAMETERS: u64 = 2;

    pub const LOW_DIAMETERS: u64 = 10;

    // Of an ordinary and of a leap year.
    pub const MINUTES: u32 = 525_600;

    pub const LEAP_MINUTES: u32 = 527_040;

    pub const DAY_MINUTES: u32 = 1_440;

    // Whether the enclosure is too short for an enclosed flare.
    pub fn is_open(self) -> bool
        ensures { result ≡ is_open self }
    {
        self.height as u64 <= Site::OPEN_DIAMETERS * self.diameter as u64
    }

    // How many minutes the site's year has.
    pub fn minutes(self) -> u32
        ensures { result ≡ year_minutes self.year }
    {
        if self.year % 4 == 0 {
            Site::LEAP_MINUTES
        } else {
            Site::MINUTES
        }
    }

    // The first of the refusals 3 to 9 of the fields. Each test returns: through also the refusal's number is worked out even where there is none.
    pub fn verdict(self) -> Result<(), Refusal>
        ensures { result ≡ first_of (site_lines self) }
    {
        let measured = self.method == Site::MEASURED;
        let temperature = self.temperature;
        let flow = self.flow;
        if !((self.method == Site::DEFAULT) | measured) {
            return Err(Refusal::Method);
        }
        if (self.year < Site::FIRST_YEAR) | (Site::LAST_YEAR < self.year) {
            return Err(Refusal::Year);
        }
        if (self.gwp < Site::LEAST_GWP) | (Site::MOST_GWP < self.gwp) {
            return Err(Refusal::Gwp);
        }
        if (Site::MOST_HEIGHT < self.height)
            | ((self.diameter < Site::LEAST_DIAMETER) | (Site::MOST_DIAMETER < self.diameter))
        {
            return Err(Refusal::Size);
        }
        if temperature.wrong(Site::TEMPERATURES) | flow.wrong(Site::FLOWS) {
            return Err(Refusal::Spec);
        }
        if measured & self.is_open() {
            return Err(Refusal::Open);
        }
        if (Site::MOST_DAYS < self.days) | (measured & (self.days < Site::LEAST_DAYS_MEASURED)) {
            return Err(Refusal::Schedule);
        }
        Ok(())
    }
}
