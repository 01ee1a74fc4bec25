// Writing both records into any buffer.
#![tactic(auto)]

mod minutes;
mod sites;

pub use minutes::write_minute;
pub use sites::write_site;
