// The calls that add minutes to an account: `add` and `fill`.
ghost use Rattle.account.specs.Kept.{Kept};
ghost use Rattle.desk_account.specs.Desk.{Ready};

use crate::no_account;
use account::Account;
use answers::Answers;
use refusals::Refusal;
use std::fmt::Write;
use tool06::Figures;

// Adds a record; every account that the calls give stays one.
fn add_to(account: &mut Account, record: &[u8]) -> Result<Figures, Refusal>
    requires { Kept account.old }
    ensures { Kept account.new }
{
    account.add(record)
}

pub fn add(desk: &mut Option<Account>, record: &[u8], out: &mut Answers)
    requires { Ready desk.old }
    ensures { Ready desk.new }
{
    match desk {
        Some(account) => {
            let expected = account.minutes();
            let answer = add_to(account, record);
            lines::put_minute(&mut out.page, expected, answer);
        }
        None => no_account(out),
    }
}

// How often a record was taken, and the refusal that ended it.
#[derive(Clone, Copy)]
struct Stopped {
    taken: u32,
    refusal: Refusal,
}

// Adds a record a number of times, each time under the minute expected, up to a refusal.
fn fill_up(account: &mut Account, count: u32, record: &mut [u8]) -> Result<(), Stopped>
    requires { Kept account.old }
    ensures { Kept account.new }
{
    for taken in 0..count {
        numbers::put(record, 3, account.minutes());
        add_to(account, record).map_err(|refusal| Stopped { taken, refusal })?;
    }
    Ok(())
}

fn put_filled(out: &mut Answers, count: u32, minute: u32, filled: Result<(), Stopped>) {
    let _ = match filled {
        Ok(()) => write!(out, "taken {count}\n"),
        Err(Stopped { taken, refusal }) => write!(
            out,
            "taken {taken} minute {minute} refused {}\n",
            refusal.number(),
        ),
    };
}

pub fn fill(desk: &mut Option<Account>, count: u32, record: &mut [u8], out: &mut Answers)
    requires { Ready desk.old }
    ensures { Ready desk.new }
{
    match desk {
        Some(account) => {
            let filled = fill_up(account, count, record);
            put_filled(out, count, account.minutes(), filled);
        }
        None => no_account(out),
    }
}
