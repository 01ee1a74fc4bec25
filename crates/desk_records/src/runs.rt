// The call for a day of a run, `part`.
use answers::Answers;
use minute::Minute;
use std::fmt::Write;

pub(crate) fn part(day: u32, records: &[u8], out: &mut Answers) {
    let bytes = day::day_part(records, day).len();
    if bytes == 0 {
        let _ = write!(out, "part empty\n");
    } else {
        let from = day as u64 * Minute::DAY_BYTES as u64;
        let _ = write!(out, "part at {from} bytes {bytes}\n");
    }
}
