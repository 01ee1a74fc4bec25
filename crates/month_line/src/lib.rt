// The line of a month.
#![tactic(auto)]

ghost use Rattle.std.specs.Prelude.{◌+◌, ◌≤◌, length};
ghost use Rattle.account.specs.Kept.{Kept};
ghost use Rattle.sums.specs.scaffold.Fits.{minutes_most};
ghost use Rattle.text.specs.Places.{Puts};
ghost use Rattle.room.specs.Places.{PutsLine};
ghost use Rattle.month_line.specs.Line.{row_line, month_line};

use account::Account;
use by_month::Row;
use lines::LONGEST;
use room::room;
use sheet::{put_count, put_sums};
use text::Page;

fn put_row(page: &mut Page, month: u32, row: Row)
    requires at_in_bounds { page.old.at + 163 ≤ length page.old.buffer.now }
    requires month_le_minutes_most { (month ≤ minutes_most) × (row.sums.minutes ≤ minutes_most) × (row.sums.gas ≤ minutes_most) }
    ensures { Puts page.old (row_line month row) page.new }
{
    page.text(b"month ");
    put_count(page, month);
    page.text(b" minutes ");
    put_sums(page, row.sums, row.co2e);
    page.text(b"\n");
}

// A month's line, and nothing of a month that is refused; without room for any line nothing is put, and the place stays.
pub fn put_month(page: &mut Page, account: Account, month: u32)
    requires { Kept account }
    ensures { PutsLine page.old (month_line account month) page.new }
{
    if let Ok(row) = by_month::month(account, month) {
        if LONGEST <= room(page) {
            put_row(page, month, row);
        }
    }
}
