// The call for a run of records, `check`.
ghost use Rattle.account.specs.Kept.{Kept};

use account::Account;
use answers::Answers;
use run::Refused;
use std::fmt::Write;

pub(crate) fn check(account: Account, records: &[u8], out: &mut Answers)
    requires { Kept account }
{
    match run::check_run(account, records) {
        Ok(()) => out.text(b"fine\n"),
        Err(Refused::Run(refusal)) => out.refused(refusal),
        Err(
            Refused::At {
                day,
                minute,
                refusal,
            },
        ) => {
            let _ = write!(
                out,
                "day {day} minute {minute} refused {}\n",
                refusal.number(),
            );
        }
    }
}
