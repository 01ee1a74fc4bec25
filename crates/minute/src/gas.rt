// The gas in a minute's record: eight fractions in ppm by volume.
ghost use Rattle.std.specs.Prelude.{◌≡◌};
ghost use Rattle.minute.specs.Rules.{fraction_sum, composition_wrong, methane_wrong};

#[derive(Clone, Copy)]
pub struct Gas {
    pub ch4: u32,
    pub co: u32,
    pub co2: u32,
    pub o2: u32,
    pub h2: u32,
    pub h2s: u32,
    pub nh3: u32,
    pub n2: u32,
}

impl Gas {
    // All of the gas, in ppm.
    pub const WHOLE: u32 = 1_000_000;

    // The density of methane, in g/m3: nanograms in a litre of gas for each ppm.
    pub const DENSITY: u64 = 716;

    // The weights of K, by which the exhaust volume goes.
    pub const K_CH4: u64 = 716;

    pub const K_CO: u64 = 242;

    pub const K_CO2: u64 = 84;

    pub const K_O2: u64 = 316;

    pub const K_H2: u64 = 158;

    pub const K_H2S: u64 = 158;

    pub const K_NH3: u64 = 279;

    pub const K_N2: u64 = 84;

    // The weights of S, whose sign is that of the oxygen that burning the gas takes.
    pub const S_CH4: u64 = 8;

    pub const S_CO: u64 = 2;

    pub const S_O2: u64 = 4;

    pub const S_H2: u64 = 2;

    pub const S_H2S: u64 = 2;

    pub const S_NH3: u64 = 3;

    fn total(self) -> u64
        ensures { result ≡ fraction_sum self }
    {
        self.ch4 as u64
            + self.co as u64
            + self.co2 as u64
            + self.o2 as u64
            + self.h2 as u64
            + self.h2s as u64
            + self.nh3 as u64
            + self.n2 as u64
    }

    // No fraction of a gas that adds up to the whole is above it.
    pub(crate) fn composition_wrong(self) -> bool
        ensures { result ≡ composition_wrong self }
    {
        self.total() != Gas::WHOLE as u64
    }

    pub(crate) fn methane_wrong(self) -> bool
        ensures { result ≡ methane_wrong self }
    {
        (self.ch4 == 0)
            | (self.ch4 < self.co)
            | (self.ch4 < self.h2)
            | (self.ch4 < self.h2s)
            | (self.ch4 < self.nh3)
    }
}
