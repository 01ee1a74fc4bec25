// The answers of the desk, put one after the other into a buffer, where they wait to be printed.
#![tactic(auto)]

mod digits;

ghost use Rattle.std.specs.Prelude.{◌≡◌, ◌<◌, ◌≤◌, ◌+◌, ◌↔◌, length, IsTrue};
ghost use Rattle.text.specs.Places.{Puts};

use digits::{digits_of, pair_of};
use refusals::Refusal;
use std::fmt;
use std::fmt::Write;
use text::Page;

// The page that they are put on. What there is no room for is left out; the desk's page has room for the longest answer.
#[derive(Drop)]
pub struct Answers<'a> {
    pub page: Page<'a>,
}

impl Answers<'_> {
    fn has_room(&self, count: usize) -> bool
        ensures { IsTrue result ↔ (self.now.page.at + count ≤ length self.now.page.buffer.now) }
    {
        self.page.at <= self.page.buffer.len() && count <= self.page.buffer.len() - self.page.at
    }

    pub fn text(&mut self, words: &[u8])
        ensures room { self.old.page.at + length words.now ≤ length self.old.page.buffer.now → Puts self.old.page words.now self.new.page }
        ensures no_room { length self.old.page.buffer.now < self.old.page.at + length words.now → (self.new.page.buffer.now ≡ self.old.page.buffer.now) × (self.new.page.at ≡ self.old.page.at) × (self.new.page.buffer.ghost_name ≡ self.old.page.buffer.ghost_name) }
    {
        if self.has_room(words.len()) {
            self.page.text(words);
        }
    }

    // Each of these numbers after a space.
    pub fn each(&mut self, numbers: &[u32]) {
        for number in numbers {
            let _ = write!(self, " {number}");
        }
    }

    // Bytes in hexadecimal, as many as there is room for.
    pub fn hex(&mut self, bytes: &[u8]) {
        let at = self.page.at;
        let free = self.page.buffer.get_mut(at..).unwrap_or(&mut []);
        let count = bytes.len().min(free.len() / 2);
        for (pair, byte) in free.chunks_exact_mut(2).zip(bytes) {
            pair.copy_from_slice(&pair_of(*byte));
        }
        self.page.at = at + 2 * count;
    }

    // A number in hexadecimal, all its sixteen digits.
    pub fn bits(&mut self, n: u64) {
        self.text(&digits_of(n));
    }

    // A refusal that is all of the answer.
    pub fn refused(&mut self, refusal: Refusal) {
        let _ = write!(self, "refused {}\n", refusal.number());
    }
}

impl fmt::Write for Answers<'_> {
    fn write_str(&mut self, words: &str) -> fmt::Result {
        self.text(words.as_bytes());
        Ok(())
    }
}
