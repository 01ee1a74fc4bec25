// Lines come in chunks, which end anywhere.
ghost use Rattle.desk_account.specs.Desk.{Ready};

use crate::answer::answer;
use account::Account;
use answers::Answers;
use memchr::memchr;
use std::io::Read;
use text::Page;

// Answers wait on their page until more do than this.
const FULL: usize = 65_536;

// The input could not be read, or answers could not be printed, and that was said.
#[derive(Clone, Copy, Debug)]
pub(crate) struct Failed;

// How much of a line was heard that has no end yet; none once that is more than its buffer has.
#[derive(Drop)]
struct Line<'a> {
    buffer: &'a mut [u8],
    heard: Option<usize>,
}

impl Line<'_> {
    // Keeps more of the line behind what was heard of it.
    fn keep(&mut self, more: &[u8]) {
        let Some(from) = self.heard else {
            return;
        };
        if from <= self.buffer.len() && more.len() <= self.buffer.len() - from {
            let to = from + more.len();
            self.buffer[from..to].copy_from_slice(more);
            self.heard = Some(to);
        } else {
            self.heard = None;
        }
    }

    fn text(&self) -> Option<&[u8]> {
        self.buffer.get(..self.heard?)
    }
}

// The desk, the line that it hears, room for the bytes that a line spells, and the answers that wait. That the desk is `Ready` stands in clauses: a ghost field beside a lent buffer gets no generated proof.
#[derive(Drop)]
pub(crate) struct Talk<'a> {
    pub desk: Option<Account>,
    line: Line<'a>,
    bytes: &'a mut [u8],
    out: Answers<'a>,
}

// Waits for more of the input: how many bytes came, none at its end.
pub(crate) fn read_more(
    rt: &impl Eprint,
    input: &mut impl Read,
    chunk: &mut [u8],
) -> Result<usize, Failed> {
    input.read(chunk).map_err(|_| {
        notes::unread(rt);
        Failed
    })
}

// Prints the answers, or says that it could not.
fn print(rt: &(impl Print + Eprint), out: &mut Answers) -> Result<(), Failed> {
    let at = out.page.at;
    out.page.at = 0;
    let Some(waiting) = out.page.buffer.get(..at) else {
        notes::unwritten(rt);
        return Err(Failed);
    };
    rt.write_all(waiting).map_err(|error| {
        notes::unprinted(rt, error);
        Failed
    })
}

impl<'a> Talk<'a> {
    // No account is open, and nothing was heard.
    pub fn new(line: &'a mut [u8], bytes: &'a mut [u8], answers: &'a mut [u8]) -> Talk<'a>
        ensures { Ready result.desk }
    {
        let line = Line {
            buffer: line,
            heard: Some(0),
        };
        let page = Page {
            buffer: answers,
            at: 0,
        };
        let out = Answers { page };
        Talk {
            desk: None,
            line,
            bytes,
            out,
        }
    }

    fn answer(&mut self)
        requires { Ready self.old.desk }
        ensures { Ready self.new.desk }
    {
        answer(&mut self.desk, self.line.text(), self.bytes, &mut self.out);
    }

    // A line's end: it is answered, the answers are printed when there are many, and the next begins.
    fn end_line(&mut self, rt: &(impl Print + Eprint)) -> Result<(), Failed>
        requires { Ready self.old.desk }
        ensures { Ready self.new.desk }
    {
        self.answer();
        self.line.heard = Some(0);
        if FULL < self.out.page.at {
            print(rt, &mut self.out)?;
        }
        Ok(())
    }

    // Answers the lines that end in this chunk, and keeps the beginning of the next. The first of them may have begun before.
    pub fn hear(&mut self, rt: &(impl Print + Eprint), chunk: &[u8]) -> Result<(), Failed>
        requires { Ready self.old.desk }
        ensures { Ready self.new.desk }
    {
        let mut rest = chunk;
        while let Some(end) = memchr(b'\n', rest) {
            self.line.keep(&rest[..end]);
            self.end_line(rt)?;
            // In two steps, as nothing says that one more than the end fits its type.
            rest = &rest[end..][1..];
        }
        self.line.keep(rest);
        print(rt, &mut self.out)
    }

    // The end of the input: answers a last line that has no end.
    pub fn end(&mut self, rt: &(impl Print + Eprint)) -> Result<(), Failed>
        requires { Ready self.old.desk }
        ensures { Ready self.new.desk }
    {
        if self.line.heard == Some(0) {
            return Ok(());
        }
        self.answer();
        print(rt, &mut self.out)
    }
}
