// The maintenance list: days relative to 1 January, which is day 0.
#![tactic(auto)]

mod list;
mod time;

pub use list::{Maintenance, list_wrong};
pub use time::in_time;
