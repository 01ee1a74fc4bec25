// The lines of the minutes, and the last lines: the total and the year, before which a summary has the minutes under each rule.
ghost use Rattle.std.specs.Prelude.{◌≡◌, ◌+◌, ◌≤◌, length};
ghost use Rattle.account.specs.Kept.{Kept};
ghost use Rattle.ending.specs.Ending.{ending};
ghost use Rattle.text.specs.Places.{Puts};

use crate::by_rule::print_rules;
use account::Account;
use ending::put_ending;
use program::{OUT, Output, Stopped, print};
use refusals::Refusal;
use report::feed;
use text::Page;

// A summary leaves the minutes' lines out.
#[derive(Clone, Copy)]
pub(crate) struct Lines {
    pub(crate) summary: bool,
}

// The total and the year, on a page that has nothing yet.
fn finish(rt: &(impl Print + Eprint), account: Account, page: &mut Page) -> Result<(), Stopped>
    requires kept { Kept account }
    requires start { page.old.at ≡ 0 }
    requires room { page.old.at + 326 ≤ length page.old.buffer.now }
    ensures { Puts page.old (ending account) page.new }
{
    put_ending(page, account);
    print(rt, page)
}

impl Output for Lines {
    fn add(
        &self,
        rt: &(impl Print + Eprint),
        account: &mut Account,
        records: &[u8],
        out: &mut [u8; OUT],
    ) -> Result<Result<(), Refusal>, Stopped> {
        let mut page = Page { buffer: out, at: 0 };
        let verdict = feed(account, records, &mut page);
        if !self.summary {
            print(rt, &page)?;
        }
        Ok(verdict)
    }

    fn end(
        &self,
        rt: &(impl Print + Eprint),
        account: Account,
        _verdict: Result<(), Refusal>,
        out: &mut [u8; OUT],
    ) -> Result<(), Stopped> {
        if self.summary {
            print_rules(rt, account.counts())?;
        }
        let mut page = Page { buffer: out, at: 0 };
        finish(rt, account, &mut page)
    }
}
