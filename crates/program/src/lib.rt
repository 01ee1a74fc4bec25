// What the programs `flare` and `months` do alike: how they begin, read and print, and how they end.
#![tactic(auto)]

mod beginning;
mod ended;
mod minutes;
mod streams;

pub use beginning::begin;
pub use ended::{Ended, Stopped, conclude, tell};
pub use minutes::{OUT, Output, read, run};
pub use streams::{Broken, fill, print, print_used};
