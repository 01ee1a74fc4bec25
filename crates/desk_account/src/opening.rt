// The call `open`, with the days that its line lists.
ghost use Rattle.std.specs.Prelude.{IfOk};
ghost use Rattle.account.specs.Kept.{Kept};
ghost use Rattle.desk_account.specs.Desk.{Ready};

use account::Account;
use answers::Answers;
use forms::call::{DAY, Form};
use forms::expected;
use forms::take::Misfit;
use forms::word::next_word;
use refusals::Refusal;

// One day more than may be listed: a list of more is refused whatever they are, so its first 65 stand for it.
const DAYS: usize = 65;

// An array with its length: nothing here has the heap.
#[derive(Clone, Copy)]
struct Days {
    days: [i16; DAYS],
    count: usize,
}

impl Days {
    fn listed(&self) -> &[i16] {
        self.days.get(..self.count).unwrap_or(&[])
    }
}

const NO_DAYS: Days = Days {
    days: [0; DAYS],
    count: 0,
};

// The days of a list.
fn days_in(list: &[u8]) -> Result<Days, Misfit> {
    let mut days = [0; DAYS];
    let mut count = 0;
    let mut rest = list;
    while let Some((word, left)) = next_word(rest) {
        let day = words::signed_in(word).ok_or(Misfit::Wrong(DAY))?;
        if count < DAYS {
            days[count] = u16::try_from(day).unwrap_or(0).cast_signed();
            count += 1;
        }
        rest = left;
    }
    Ok(Days { days, count })
}

// What stands behind the site's word: nothing, or the word `days` and the days.
fn list_in(rest: &[u8]) -> Result<Days, Misfit> {
    match next_word(rest) {
        None => Ok(NO_DAYS),
        Some((word, list)) if word == b"days".as_slice() => days_in(list),
        Some(_) => Err(Misfit::Form),
    }
}

// An account of the site in this record, or why it is refused.
#[tactic(auto, using(account::proofs::Laws::opened_kept))]
fn opened(record: &[u8], days: &[i16]) -> Result<Account, Refusal>
    ensures { IfOk result (λ account. Kept account) }
{
    let site = reading::read_site(record)?;
    Account::open(site, days)
}

fn with_list(desk: &mut Option<Account>, record: &[u8], days: &[i16], out: &mut Answers)
    requires { Ready desk.old }
    ensures { Ready desk.new }
{
    match opened(record, days) {
        Ok(account) => {
            *desk = Some(account);
            out.text(b"opened\n");
        }
        Err(refusal) => out.refused(refusal),
    }
}

// Opens an account of the site in this record, with the list that the rest of the line has; a refusal leaves the one that is open.
pub fn open(desk: &mut Option<Account>, form: Form, record: &[u8], rest: &[u8], out: &mut Answers)
    requires { Ready desk.old }
    ensures { Ready desk.new }
{
    match list_in(rest) {
        Ok(days) => with_list(desk, record, days.listed(), out),
        Err(misfit) => expected::form(out, form, misfit),
    }
}
