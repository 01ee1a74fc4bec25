// The lines of a minute and of a refused site, each put on a page from its place on.
#![tactic(auto)]

ghost use Rattle.std.specs.Prelude.{◌+◌, ◌≤◌, length};
ghost use Rattle.room.specs.Places.{PutsLine};
ghost use Rattle.text.specs.Places.{Puts};
ghost use Rattle.lines.specs.Lines.{methane, accepted_line, refused_line, minute_line, site_line};

use refusals::Refusal;
use room::room;
use text::Page;
use tool06::Figures;

// No line is longer.
pub const LONGEST: usize = 163;

// Methane in mg, of a minute or of sums.
pub fn put_methane(page: &mut Page, fed: u64, emitted: u64, destroyed: u64)
    requires { page.old.at + 85 ≤ length page.old.buffer.now }
    ensures put_from { Puts page.old (methane fed emitted destroyed) page.new }
    ensures within { page.new.at ≤ page.old.at + 85 }
{
    page.text(b" fed ");
    page.decimal(fed);
    page.text(b" emitted ");
    page.decimal(emitted);
    page.text(b" destroyed ");
    page.decimal(destroyed);
}

fn put_accepted(page: &mut Page, minute: u32, figures: Figures)
    requires { page.old.at + 163 ≤ length page.old.buffer.now }
    ensures { Puts page.old (accepted_line minute figures) page.new }
{
    page.text(b"minute ");
    page.decimal(minute as u64);
    page.text(b" rule ");
    page.decimal(figures.rule as u64);
    put_methane(page, figures.fed, figures.emitted, figures.destroyed);
    page.text(b"\n");
}

fn put_refused(page: &mut Page, minute: u32, refusal: Refusal)
    requires { page.old.at + 163 ≤ length page.old.buffer.now }
    ensures { Puts page.old (refused_line minute refusal) page.new }
{
    page.text(b"minute ");
    page.decimal(minute as u64);
    page.text(b" refused ");
    page.decimal(refusal.number() as u64);
    page.text(b"\n");
}

// The test for room stands at each line, as a contract is not seen through a closure that puts it.
// A minute's line: its figures, or its refusal. Without room for any line nothing is put, and the place stays.
pub fn put_minute(page: &mut Page, minute: u32, answer: Result<Figures, Refusal>)
    ensures { PutsLine page.old (minute_line minute answer) page.new }
{
    if LONGEST <= room(page) {
        match answer {
            Ok(figures) => put_accepted(page, minute, figures),
            Err(refusal) => put_refused(page, minute, refusal),
        }
    }
}

// What is printed of a refused site, and nothing else is.
pub fn put_site(page: &mut Page, refusal: Refusal)
    ensures { PutsLine page.old (site_line refusal) page.new }
{
    if LONGEST <= room(page) {
        page.text(b"site refused ");
        page.decimal(refusal.number() as u64);
        page.text(b"\n");
    }
}
