// The kinds of words, and the words of a line one after the other.
ghost use Rattle.std.specs.Prelude.{◌≡◌, ◌<◌, ◌↔◌, ◌++◌, [], length, drop, IfSome, IsNone};
ghost use Rattle.words.specs.Words.{until_space};

use std::fmt;

// A number of one, two or four bytes, or of two bytes with a sign; or bytes in hexadecimal, where those of a second record stand apart from the first one's.
#[derive(Clone, Copy, PartialEq, Eq, Debug)]
pub enum Kind {
    Byte,
    Word,
    Long,
    Signed,
    Hex,
    Second,
}

// A word of a call's form: what it is called there, and its kind.
#[derive(Clone, Copy, PartialEq, Eq, Debug)]
pub struct Word(pub &'static str, pub Kind);

// What is expected of it.
impl fmt::Display for Kind {
    fn fmt<W: fmt::Write>(&self, f: &mut fmt::Formatter<W>) -> fmt::Result {
        match self {
            Kind::Byte => write!(f, "a number from 0 to 255"),
            Kind::Word => write!(f, "a number from 0 to 65535"),
            Kind::Long => write!(f, "a number from 0 to 4294967295"),
            Kind::Signed => write!(f, "a number from -32768 to 32767"),
            Kind::Hex | Kind::Second => write!(f, "hexadecimal digits, two for each byte"),
        }
    }
}

impl fmt::Display for Word {
    fn fmt<W: fmt::Write>(&self, f: &mut fmt::Formatter<W>) -> fmt::Result {
        write!(f, "{} is {}", self.0, self.1)
    }
}

// The next word of what is left of a line behind a word, and what is left behind that.
pub fn next_word(rest: &[u8]) -> Option<(&[u8], &[u8])>
    ensures none { IsNone result ↔ (rest.now ≡ []) }
    ensures next { IfSome result (λ next. next.0.now ++ next.1.now ≡ drop 1 rest.now) }
    ensures word { IfSome result (λ next. length next.0.now ≡ length (until_space (drop 1 rest.now))) }
    ensures shorter { IfSome result (λ next. length next.1.now < length rest.now) }
{
    let (_, rest) = rest.split_first()?;
    Some(rest.split_at(words::end_of_word(rest, 0)))
}
