// The line of a rule in a summary, put on a page from its place on.
#![tactic(auto)]

ghost use Rattle.room.specs.Places.{PutsLine};
ghost use Rattle.summary.specs.Summary.{rule_line};

use lines::LONGEST;
use room::room;
use text::Page;

// A rule's words are no longer, so that its line is not either.
const WORDS: usize = 80;

// The minutes under one rule, which the words describe; there is no line with longer words than WORDS.
pub fn put_rule(page: &mut Page, rule: u8, minutes: u32, words: &[u8])
    ensures { PutsLine page.old (rule_line rule minutes words.now) page.new }
{
    if WORDS < words.len() {
        return;
    }
    if LONGEST <= room(page) {
        page.text(b"rule ");
        page.decimal(rule as u64);
        page.text(b" minutes ");
        page.decimal(minutes as u64);
        page.text(b" ");
        page.text(words);
        page.text(b"\n");
    }
}
