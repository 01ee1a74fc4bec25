// The input's beginning: the site, and an account of it.
ghost use Rattle.std.specs.Prelude.{ℕ, ◌≡◌, ◌+◌, ◌≤◌, [], length, take, IfOk};
ghost use Rattle.account.specs.Kept.{Kept};
ghost use Rattle.account.specs.Opening.{opened};
ghost use Rattle.lines.specs.Lines.{site_line};
ghost use Rattle.site.specs.Record.{read_site};
ghost use Rattle.site.specs.declared.Site.{Site};
ghost use Rattle.text.specs.Places.{Puts};

use crate::ended::Stopped;
use crate::minutes::OUT;
use crate::streams::{Broken, fill, print, unread};
use account::Account;
use ending::put_refused_site;
use refusals::Refusal;
use site::Site;
use std::io::{IsTerminal, Read};
use text::Page;

// All that is printed of a site that is refused, on a page that has nothing yet.
fn print_refused(
    rt: &(impl Print + Eprint),
    refusal: Refusal,
    page: &mut Page,
) -> Result<(), Stopped>
    requires start { page.old.at ≡ 0 }
    requires room { page.old.at + 163 ≤ length page.old.buffer.now }
    ensures { Puts page.old (site_line refusal) page.new }
{
    put_refused_site(page, refusal);
    print(rt, page)
}

// A site that is refused, and why.
fn refuse(
    rt: &(impl Print + Eprint),
    refusal: Refusal,
    bytes: &[u8],
    out: &mut [u8; OUT],
) -> Stopped {
    let mut page = Page { buffer: out, at: 0 };
    match print_refused(rt, refusal, &mut page) {
        Ok(()) => {
            notes::refused_site(rt, refusal, bytes);
            Stopped::Refused
        }
        Err(stopped) => stopped,
    }
}

// On a terminal, how the site was understood, before the minutes are read.
fn show(rt: &impl Eprint, stderr: &impl IsTerminal, site: Site) {
    if stderr.is_terminal() {
        notes::understood(rt, site);
    }
}

// The account of the site in these bytes, or why it is refused.
#[tactic(auto, using(account::proofs::Laws::opened_kept))]
fn open(bytes: &[u8]) -> Result<Account, Refusal>
    ensures of_site { IfOk result (λ account. (site : Site) × (read_site bytes.now ≡ Ok site) × (opened site [] ≡ Ok account)) }
    ensures kept { IfOk result (λ account. Kept account) }
{
    let site = reading::read_site(bytes)?;
    Account::open(site, &[])
}

// Of the bytes that were read into the buffer.
fn receive(
    rt: &(impl Print + Eprint),
    stderr: &impl IsTerminal,
    read: Result<usize, Broken>,
    buffer: &[u8],
    out: &mut [u8; OUT],
) -> Result<Account, Stopped>
    requires { IfOk read (λ bytes. bytes ≤ length buffer.now) }
    ensures of_site { IfOk result (λ account. (n : ℕ) × (read ≡ Ok n) × (site : Site) × (read_site (take n buffer.now) ≡ Ok site) × (opened site [] ≡ Ok account)) }
    ensures kept { IfOk result (λ account. Kept account) }
{
    let n = read.map_err(|_| unread(rt))?;
    let bytes = &buffer[..n];
    let account = open(bytes).map_err(|refusal| refuse(rt, refusal, bytes, out))?;
    show(rt, stderr, account.site());
    Ok(account)
}

// Reads the site and opens its account, or prints its refusal and says why.
pub fn begin(
    rt: &(impl Print + Eprint),
    input: &mut impl Read,
    stderr: &impl IsTerminal,
    out: &mut [u8; OUT],
) -> Result<Account, Stopped>
    ensures { IfOk result (λ account. Kept account) }
{
    let mut first = [0u8; Site::BYTES];
    let read = fill(input, &mut first);
    receive(rt, stderr, read, &first, out)
}
