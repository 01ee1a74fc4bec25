// What the launcher asks of a program, by the words that it starts it with, and what it is told when the program ends.
#![tactic(auto)]

use std::fs::OpenOptions;
use std::io::Write;
use std::rt::{Env, Files};

// The launcher listens here, at descriptor 3, and makes an exit status of what it is told.
const LAUNCHER: &str = "/dev/fd/3";

// How many words after the program's name the launcher may give.
const WORDS: usize = 2;

// Whether one of the words after the program's name is this one.
pub fn asked(rt: &impl Env, word: &[u8]) -> bool {
    (1..=WORDS).any(|place| is(rt, place, word))
}

// No longer word is asked for. A buffer holds it: the list of std's `env::args` is made on the heap, which no program here has.
fn is(rt: &impl Env, place: usize, word: &[u8]) -> bool {
    let mut given = [0u8; 16];
    let length = rt.arg(place, &mut given).unwrap_or(0);
    &given[..length] == word
}

// Where nobody listens, nothing is told.
pub fn tell(rt: &impl Files, status: u64) {
    if let Ok(mut launcher) = OpenOptions::new().write(true).open(rt, LAUNCHER) {
        let _ = write!(launcher, "{status}");
    }
}
