// Words to standard error, and how measures stand in them.
use std::fmt;
use std::fmt::{Display, Formatter, Write};

// What cannot be said there is lost.
pub(crate) fn say(rt: &impl Eprint, words: impl Display + Drop) {
    let _ = rt.eprint(words);
}

// Millimetres, shown as metres.
#[derive(Clone, Copy)]
pub(crate) struct Millimetres(pub(crate) u32);

impl Display for Millimetres {
    fn fmt<W: Write>(&self, f: &mut Formatter<W>) -> fmt::Result {
        write!(f, "{}.{:03}", self.0 / 1000, self.0 % 1000)
    }
}

// Tenths of a degree, shown as degrees.
#[derive(Clone, Copy)]
pub(crate) struct Tenths(pub(crate) i16);

impl Display for Tenths {
    fn fmt<W: Write>(&self, f: &mut Formatter<W>) -> fmt::Result {
        let sign = if self.0 < 0 { "-" } else { "" };
        let tenths = self.0.unsigned_abs();
        write!(f, "{sign}{}.{}", tenths / 10, tenths % 10)
    }
}
