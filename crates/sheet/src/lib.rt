// The lines of an account, its total and its year, each put on a page from its place on.
#![tactic(auto)]

ghost use Rattle.std.specs.Prelude.{◌+◌, ◌≤◌, length};
ghost use Rattle.account.specs.Kept.{Kept};
ghost use Rattle.sums.specs.scaffold.Fits.{minutes_most};
ghost use Rattle.text.specs.Places.{Puts};
ghost use Rattle.text.specs.Text.{decimal};
ghost use Rattle.room.specs.Places.{PutsLine};
ghost use Rattle.sheet.specs.Sheet.{sums_text, total_line, standing, year_line};

use account::Account;
use lines::{LONGEST, put_methane};
use refusals::Refusal;
use room::room;
use sums::Sums;
use text::Page;

// A number of minutes, or of a month: six digits at most.
pub fn put_count(page: &mut Page, n: u32)
    requires at_in_bounds { page.old.at + 20 ≤ length page.old.buffer.now }
    requires n_le_minutes_most { n ≤ minutes_most }
    ensures put_from { Puts page.old (decimal n) page.new }
    ensures within { page.new.at ≤ page.old.at + 6 }
{
    page.decimal(n as u64);
}

// Minutes accepted, of them those with gas, the sums of methane, and CO2 equivalent, of a year or a part of it.
pub fn put_sums(page: &mut Page, sums: Sums, co2e: u64)
    requires at_in_bounds { page.old.at + 128 ≤ length page.old.buffer.now }
    requires minutes_le_minutes_most { (sums.minutes ≤ minutes_most) × (sums.gas ≤ minutes_most) }
    ensures put_from { Puts page.old (sums_text sums co2e) page.new }
    ensures within { page.new.at ≤ page.old.at + 128 }
{
    put_count(page, sums.minutes);
    page.text(b" gas ");
    put_count(page, sums.gas);
    put_methane(page, sums.fed, sums.emitted, sums.destroyed);
    page.text(b" co2e ");
    page.decimal(co2e);
}

pub fn put_total(page: &mut Page, account: Account)
    requires { Kept account }
    ensures { PutsLine page.old (total_line account) page.new }
{
    let sums = account.sums();
    let co2e = account.co2e();
    if LONGEST <= room(page) {
        page.text(b"total ");
        put_sums(page, sums, co2e);
        page.text(b"\n");
    }
}

// Whether the year is open, or the tonnes that it closed with.
fn put_standing(page: &mut Page, closed: Result<u64, Refusal>)
    requires { page.old.at + 28 ≤ length page.old.buffer.now }
    ensures put_from { Puts page.old (standing closed) page.new }
    ensures within { page.new.at ≤ page.old.at + 28 }
{
    match closed {
        Ok(tonnes) => {
            page.text(b" tonnes ");
            page.decimal(tonnes);
        }
        Err(_) => page.text(b" open"),
    }
}

pub fn put_year(page: &mut Page, account: Account)
    requires { Kept account }
    ensures { PutsLine page.old (year_line account) page.new }
{
    let site = account.site();
    let closed = account.close();
    if LONGEST <= room(page) {
        page.text(b"year ");
        page.decimal(site.year as u64);
        put_standing(page, closed);
        page.text(b"\n");
    }
}
