// What one minute is worth.
// The rule by its number, and methane in mg.
#[derive(Clone, Copy)]
pub struct Figures {
    pub rule: u8,
    pub fed: u64,
    pub emitted: u64,
    pub destroyed: u64,
}

impl Figures {
    // The rules' numbers, and no enum: a line and a count are promised for any number.
    pub const NO_GAS: u8 = 0;

    pub const NO_FLAME: u8 = 1;

    pub const OPEN: u8 = 2;

    pub const DEFAULT: u8 = 3;

    pub const NO_TEMPERATURE: u8 = 4;

    pub const TEMPERATURE: u8 = 5;

    pub const FLOW: u8 = 6;

    pub const OVERDUE: u8 = 7;

    pub const NO_EXHAUST: u8 = 8;

    pub const MEASURED: u8 = 9;

    // How many rules there are.
    pub const RULES: usize = 10;

    // Of the answer to the C call: three figures of eight bytes, and the rule.
    pub const ANSWER_BYTES: usize = 25;

    // The oxygen in air, in ppm.
    pub const AIR_OXYGEN: u32 = 210_000;

    // Nanograms to a mg.
    pub const NANOGRAMS: u64 = 1_000_000;
}
