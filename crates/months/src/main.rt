// Reads a site record and then minutes from standard input, and prints the sums of each month, the total and the year.
#![tactic(auto)]

ghost use Rattle.std.specs.Prelude.{◌≡◌, ◌+◌, ◌≤◌, length};
ghost use Rattle.account.specs.Kept.{Kept};
ghost use Rattle.monthly.specs.Monthly.{month_sheet};
ghost use Rattle.text.specs.Places.{Puts};

use account::Account;
use in_turn::add_all;
use monthly::put_sheet;
use program::{OUT, Output, Stopped, print, read, tell};
use refusals::Refusal;
use text::Page;

// All that is printed, once no record follows, on a page that has nothing yet.
fn finish(
    rt: &(impl Print + Eprint),
    account: Account,
    verdict: Result<(), Refusal>,
    page: &mut Page,
) -> Result<(), Stopped>
    requires kept { Kept account }
    requires start { page.old.at ≡ 0 }
    requires room { page.old.at + 2445 ≤ length page.old.buffer.now }
    ensures { Puts page.old (month_sheet account verdict) page.new }
{
    put_sheet(page, account, verdict);
    print(rt, page)
}

// The sums of each month, of which nothing is printed before the end.
#[derive(Clone, Copy)]
struct Months;

impl Output for Months {
    fn add(
        &self,
        _rt: &(impl Print + Eprint),
        account: &mut Account,
        records: &[u8],
        _out: &mut [u8; OUT],
    ) -> Result<Result<(), Refusal>, Stopped> {
        Ok(add_all(account, records))
    }

    fn end(
        &self,
        rt: &(impl Print + Eprint),
        account: Account,
        verdict: Result<(), Refusal>,
        out: &mut [u8; OUT],
    ) -> Result<(), Stopped> {
        let mut page = Page { buffer: out, at: 0 };
        finish(rt, account, verdict, &mut page)
    }
}

fn main(rt: HostRuntime) {
    tell(&rt, read(&rt, &mut rt.stdin(), &rt.stderr(), &Months));
}
