// The call of the desk that makes the C call, `single`.
#![tactic(auto)]

use answers::Answers;
use desk_records::buffers::{BEFORE, LARGEST, put_room};
use forms::take::Given;
use std::fmt::Write;

// The number that the C call gives, and what it leaves in the answer buffer.
pub fn single(given: &Given, out: &mut Answers) {
    let mut space = [BEFORE; LARGEST];
    let site = given.bytes(0);
    let minute = given.second(1);
    let room = &mut space[..given.number::<u16>(3) as usize];
    let number = host::flare_minute(site, minute, given.number(2), room);
    let _ = write!(out, "{number}");
    put_room(out, room);
}
