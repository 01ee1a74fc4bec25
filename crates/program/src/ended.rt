// How a program ends: what it says of it, and what its launcher is told.
ghost use Rattle.account.specs.Kept.{Kept};

use account::Account;
use minute::Minute;
use refusals::Refusal;
use report::MINUTES;
use site::Site;
use std::rt::{Env, Files};
use tool06::Figures;

// Why a program does not end well. The launcher is told the number, and 0 where all is well.
#[derive(Clone, Copy)]
pub enum Stopped {
    Refused = 1,
    Failed = 2,
}

fn status(ended: Result<(), Stopped>) -> u64 {
    match ended {
        Ok(()) => 0,
        Err(stopped) => stopped as u64,
    }
}

pub fn tell(rt: &(impl Env + Files), ended: Result<(), Stopped>) {
    if launcher::asked(rt, b"--status") {
        launcher::tell(rt, status(ended));
    }
}

// How the reading of the minutes ended once the last lines are printed, without the account: one that is handed on whole keeps all of its rows in the loop.
// The verdict is that of the last record, and the bytes are those of the last buffer.
#[derive(Clone, Copy)]
pub struct Ended {
    verdict: Result<(), Refusal>,
    site: Site,
    expected: u32,
    overdue: u32,
    bytes: usize,
}

impl Ended {
    pub fn of(verdict: Result<(), Refusal>, account: Account, bytes: usize) -> Ended
        requires { Kept account }
    {
        let site = account.site();
        let counts = account.counts();
        Ended {
            verdict,
            site,
            expected: account.minutes(),
            overdue: counts[Figures::OVERDUE as usize],
            bytes,
        }
    }
}

// Says why the record was refused that stands behind those that were taken from the last buffer; all before it were full.
fn explain(rt: &impl Eprint, refusal: Refusal, ended: Ended, records: &[u8]) {
    let at = (ended.expected % MINUTES) as usize * Minute::BYTES;
    if let Some(record) = records.get(at..ended.bytes) {
        notes::refused_minute(rt, refusal, record, ended.expected, ended.site);
    }
}

// What is to be said of the last lines, once they are printed: what a measured flare's total is not, and why a record was refused.
pub fn conclude(rt: &impl Eprint, ended: Ended, records: &[u8]) -> Result<(), Stopped> {
    if 0 < ended.overdue {
        notes::overdue(rt, ended.overdue);
    }
    ended.verdict.map_err(|refusal| {
        explain(rt, refusal, ended, records);
        Stopped::Refused
    })
}
