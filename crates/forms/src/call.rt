// The calls, and the form of each.
ghost use Rattle.std.specs.Prelude.{◌≡◌, IfSome};

use crate::word::{Kind, Word};
use std::fmt;

#[derive(Clone, Copy, PartialEq, Eq, Debug)]
pub enum Call {
    Record(RecordCall),
    Single,
    Open,
    Add,
    Fill,
    Ask(Question),
}

// The calls that need no account.
#[derive(Clone, Copy, PartialEq, Eq, Debug)]
pub enum RecordCall {
    Site,
    Minute,
    WriteSite,
    WriteMinute,
    Class,
    Part,
}

// The calls that leave the account as it is.
#[derive(Clone, Copy, PartialEq, Eq, Debug)]
pub enum Question {
    Check,
    Total,
    Month,
    Counts,
    Close,
    Chart,
}

// A call with its name, its words, and what its form has behind them.
#[derive(Clone, Copy)]
pub struct Form {
    pub call: Call,
    pub name: &'static str,
    pub words: &'static [Word],
    pub list: &'static str,
}

impl fmt::Display for Form {
    fn fmt<W: fmt::Write>(&self, f: &mut fmt::Formatter<W>) -> fmt::Result {
        write!(f, "{}", self.name)?;
        for Word(name, _) in self.words {
            write!(f, " {name}")?;
        }
        write!(f, "{}", self.list)
    }
}

const HEX: &[Word] = &[Word("HEX", Kind::Hex)];

// A word of the list of an `open`, which may be as long as the line.
pub const DAY: Word = Word("DAY", Kind::Signed);

pub(crate) const FORMS: [Form; 16] = [
    Form {
        call: Call::Record(RecordCall::Site),
        name: "site",
        words: HEX,
        list: "",
    },
    Form {
        call: Call::Record(RecordCall::Minute),
        name: "minute",
        words: HEX,
        list: "",
    },
    Form {
        call: Call::Record(RecordCall::WriteSite),
        name: "write-site",
        words: &[
            Word("METHOD", Kind::Byte),
            Word("YEAR", Kind::Word),
            Word("GWP", Kind::Word),
            Word("HEIGHT", Kind::Long),
            Word("DIAMETER", Kind::Long),
            Word("LOWEST", Kind::Signed),
            Word("HIGHEST", Kind::Signed),
            Word("LOWEST", Kind::Long),
            Word("HIGHEST", Kind::Long),
            Word("DAYS", Kind::Word),
            Word("ROOM", Kind::Word),
        ],
        list: "",
    },
    Form {
        call: Call::Record(RecordCall::WriteMinute),
        name: "write-minute",
        words: &[
            Word("NUMBER", Kind::Long),
            Word("FLAGS", Kind::Byte),
            Word("TEMPERATURE", Kind::Signed),
            Word("LITRES", Kind::Long),
            Word("CH4", Kind::Long),
            Word("CO", Kind::Long),
            Word("CO2", Kind::Long),
            Word("O2", Kind::Long),
            Word("H2", Kind::Long),
            Word("H2S", Kind::Long),
            Word("NH3", Kind::Long),
            Word("N2", Kind::Long),
            Word("OXYGEN", Kind::Long),
            Word("METHANE", Kind::Long),
            Word("ROOM", Kind::Word),
        ],
        list: "",
    },
    Form {
        call: Call::Record(RecordCall::Class),
        name: "class",
        words: HEX,
        list: "",
    },
    Form {
        call: Call::Open,
        name: "open",
        words: HEX,
        list: " [days DAY ..]",
    },
    Form {
        call: Call::Add,
        name: "add",
        words: HEX,
        list: "",
    },
    Form {
        call: Call::Fill,
        name: "fill",
        words: &[Word("COUNT", Kind::Long), Word("HEX", Kind::Hex)],
        list: "",
    },
    Form {
        call: Call::Ask(Question::Check),
        name: "check",
        words: HEX,
        list: "",
    },
    Form {
        call: Call::Record(RecordCall::Part),
        name: "part",
        words: &[Word("DAY", Kind::Long), Word("HEX", Kind::Hex)],
        list: "",
    },
    Form {
        call: Call::Ask(Question::Total),
        name: "total",
        words: &[],
        list: "",
    },
    Form {
        call: Call::Ask(Question::Month),
        name: "month",
        words: &[Word("MONTH", Kind::Long)],
        list: "",
    },
    Form {
        call: Call::Ask(Question::Counts),
        name: "counts",
        words: &[],
        list: "",
    },
    Form {
        call: Call::Ask(Question::Close),
        name: "close",
        words: &[],
        list: "",
    },
    Form {
        call: Call::Ask(Question::Chart),
        name: "chart",
        words: &[],
        list: "",
    },
    Form {
        call: Call::Single,
        name: "single",
        words: &[
            Word("SITE", Kind::Hex),
            Word("MINUTE", Kind::Second),
            Word("DAYS", Kind::Word),
            Word("ROOM", Kind::Word),
        ],
        list: "",
    },
];

// The form of the call that has a name.
pub fn form_of(name: &[u8]) -> Option<Form>
    ensures { IfSome result (λ form. form.name.now ≡ name.now) }
{
    FORMS
        .iter()
        .find(|form| form.name.as_bytes() == name)
        .copied()
}
