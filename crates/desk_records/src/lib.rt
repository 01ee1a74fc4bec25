// The calls of the desk that need no account: what a record holds, a record written into a lent buffer, a day of a run.
#![tactic(auto)]

pub mod buffers;
mod fields;
mod runs;

use answers::Answers;
use forms::call::RecordCall;
use forms::take::Given;

// What such a call answers; the bytes have the record that its line spells.
pub fn of_records(call: RecordCall, given: &Given, out: &mut Answers) {
    match call {
        RecordCall::Site => fields::site(given.bytes(0), out),
        RecordCall::Minute => fields::minute(given.bytes(0), out),
        RecordCall::Class => fields::class(given.bytes(0), out),
        RecordCall::WriteSite => buffers::write_site(given, out),
        RecordCall::WriteMinute => buffers::write_minute(given, out),
        RecordCall::Part => runs::part(given.number(0), given.bytes(1), out),
    }
}
