// The text that a program ends with: the total and the year, or the one line of a refused site.
#![tactic(auto)]

ghost use Rattle.std.specs.Prelude.{◌+◌, ◌≤◌, length};
ghost use Rattle.account.specs.Kept.{Kept};
ghost use Rattle.text.specs.Places.{Puts};
ghost use Rattle.lines.specs.Lines.{site_line};
ghost use Rattle.ending.specs.Ending.{ending};

use account::Account;
use refusals::Refusal;
use text::Page;

pub fn put_ending(page: &mut Page, account: Account)
    requires kept { Kept account }
    requires at_in_bounds { page.old.at + 326 ≤ length page.old.buffer.now }
    ensures put_from { Puts page.old (ending account) page.new }
    ensures within { page.new.at ≤ page.old.at + 326 }
{
    sheet::put_total(page, account);
    sheet::put_year(page, account);
}

pub fn put_refused_site(page: &mut Page, refusal: Refusal)
    requires { page.old.at + 163 ≤ length page.old.buffer.now }
    ensures put_from { Puts page.old (site_line refusal) page.new }
    ensures within { page.new.at ≤ page.old.at + 163 }
{
    lines::put_site(page, refusal);
}
