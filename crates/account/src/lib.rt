// The account of one flare over one calendar year.
#![tactic(auto)]

mod add;
mod close;
mod open;
mod read;

pub use close::Point;
use maintenance::Maintenance;
use rows::MONTHS;
use site::Site;
use sums::Sums;
use tool06::Figures;

// The sums over the minutes accepted so far, the minutes under each rule, and the same sums by month.
// No other crate can make one or change one but by the calls: the fields are read by methods.
#[derive(Clone, Copy)]
pub struct Account {
    site: Site,
    maintenance: Maintenance,
    sums: Sums,
    counts: [u32; Figures::RULES],
    rows: [Sums; MONTHS],
}
