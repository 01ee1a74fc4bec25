// Why a call refuses: R51 of docs/RULES.md has each name, its number, and when it is given.
ghost use Rattle.std.specs.Prelude.{◌≡◌};
ghost use Rattle.refusals.specs.Refusals.{number_of};

#[derive(Clone, Copy)]
pub enum Refusal {
    Length,
    Version,
    Method,
    Year,
    Gwp,
    Size,
    Spec,
    Open,
    Schedule,
    List,
    Full,
    Flags,
    Order,
    Flow,
    Composition,
    Methane,
    Temperature,
    Exhaust,
    Oxygen,
    Incomplete,
    Day,
    Buffer,
    Month,
}

impl Refusal {
    // Its number, written out as the rules have it.
    pub fn number(self) -> u8
        ensures { result ≡ number_of self }
    {
        match self {
            Refusal::Length => 1,
            Refusal::Version => 2,
            Refusal::Method => 3,
            Refusal::Year => 4,
            Refusal::Gwp => 5,
            Refusal::Size => 6,
            Refusal::Spec => 7,
            Refusal::Open => 8,
            Refusal::Schedule => 9,
            Refusal::List => 10,
            Refusal::Full => 11,
            Refusal::Flags => 12,
            Refusal::Order => 13,
            Refusal::Flow => 14,
            Refusal::Composition => 15,
            Refusal::Methane => 16,
            Refusal::Temperature => 17,
            Refusal::Exhaust => 18,
            Refusal::Oxygen => 19,
            Refusal::Incomplete => 20,
            Refusal::Day => 21,
            Refusal::Buffer => 22,
            Refusal::Month => 23,
        }
    }
}
