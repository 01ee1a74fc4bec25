// The text of the program `months`: a line for each month, the refusal that ended the reading, and the total and the year.
#![tactic(auto)]

ghost use Rattle.std.specs.Prelude.{◌+◌, ◌≤◌, length};
ghost use Rattle.account.specs.Kept.{Kept};
ghost use Rattle.text.specs.Places.{Puts};
ghost use Rattle.room.specs.Places.{PutsLine};
ghost use Rattle.lines.specs.Lines.{last_line};
ghost use Rattle.rows.specs.Rows.{month_count};
ghost use Rattle.monthly.specs.Monthly.{first_months, month_sheet};

use account::Account;
use month_line::put_month;
use refusals::Refusal;
use rows::MONTHS;
use text::Page;

fn put_months(page: &mut Page, account: Account)
    requires kept { Kept account }
    requires at_in_bounds { page.old.at + 1956 ≤ length page.old.buffer.now }
    ensures put_from { Puts page.old (first_months account month_count) page.new }
    ensures within { page.new.at ≤ page.old.at + 1956 }
{
    for month in 1..=MONTHS as u32 {
        put_month(page, account, month);
    }
}

// The line of the minute that was refused, if one was.
fn put_last(page: &mut Page, expected: u32, verdict: Result<(), Refusal>)
    ensures { PutsLine page.old (last_line expected verdict) page.new }
{
    if let Err(refusal) = verdict {
        lines::put_minute(page, expected, Err(refusal));
    }
}

// All that is printed of an account and of how the reading ended.
pub fn put_sheet(page: &mut Page, account: Account, verdict: Result<(), Refusal>)
    requires kept { Kept account }
    requires at_in_bounds { page.old.at + 2445 ≤ length page.old.buffer.now }
    ensures put_from { Puts page.old (month_sheet account verdict) page.new }
    ensures within { page.new.at ≤ page.old.at + 2445 }
{
    put_months(page, account);
    put_last(page, account.minutes(), verdict);
    ending::put_ending(page, account);
}
