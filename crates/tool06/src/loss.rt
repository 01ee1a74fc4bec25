// What a rule takes for lost of the methane fed.
#[derive(Clone, Copy)]
pub enum Loss {
    // So many millionths of it.
    Share(u64),
    // What the exhaust is measured to carry, and so many tenths of what is fed beside it.
    Measured(u64),
}

// A rule by its number, and what it takes for lost.
#[derive(Clone, Copy)]
pub struct Ruling {
    pub number: u8,
    pub loss: Loss,
}

impl Loss {
    // In millionths: all that is fed, and what is lost at an open flare, by default, and beside that at a low flare.
    pub const ALL: u64 = 1_000_000;

    pub const OPEN: u64 = 500_000;

    pub const DEFAULT: u64 = 100_000;

    pub const LOW: u64 = 100_000;

    // In tenths: all that is fed, and what a low flare loses beside what is measured.
    pub const ALL_TENTHS: u64 = 10;

    pub const LOW_TENTHS: u64 = 1;

    // What the exhaust is measured to carry is multiplied by P / Q, which is 1.
    pub const P: u64 = 1;

    pub const Q: u64 = 1;
}
