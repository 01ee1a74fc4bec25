// What is said where the input or the output fails.
use crate::say::say;
use std::io::{Error, ErrorKind};

pub fn unread(rt: &impl Eprint) {
    say(
        rt,
        "flare: the input could not be read to its end, and nothing follows what was printed: look at the file or its connection and run again\n",
    );
}

pub fn unwritten(rt: &impl Eprint) {
    say(
        rt,
        "flare: the output could not be written, and what stands there is not whole: make room for it and run again\n",
    );
}

// Of an output that nobody reads any more nothing is said.
pub fn unprinted(rt: &impl Eprint, error: Error) {
    if error.kind() != ErrorKind::BrokenPipe {
        unwritten(rt);
    }
}
