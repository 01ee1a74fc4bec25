// Reading both records from any bytes.
#![tactic(auto)]

mod minutes;
mod sites;

pub use minutes::{minute_in, read_minute};
pub use sites::{read_site, site_in};
