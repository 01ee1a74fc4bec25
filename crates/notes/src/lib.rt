// What a program says to a person, on standard error: how it understood the site, why it refused, what its total is not.
#![tactic(auto)]

mod minutes;
mod moment;
mod say;
mod sites;
mod streams;

pub use minutes::refused_minute;
pub use sites::{overdue, refused_site, understood};
pub use streams::{unprinted, unread, unwritten};
