// The call for one month's row.
#![tactic(auto)]

ghost use Rattle.std.specs.Prelude.{◌≡◌};
ghost use Rattle.account.specs.Kept.{Kept};
ghost use Rattle.by_month.specs.Month.{month_asked};

use account::Account;
use refusals::Refusal;
use rows::MONTHS;
use sums::Sums;

// The sums of a month's minutes, and CO2 equivalent of what they emitted, in mg.
#[derive(Clone, Copy)]
pub struct Row {
    pub sums: Sums,
    pub co2e: u64,
}

// The row of a month from 1 to 12, or 23.
pub fn month(account: Account, month: u32) -> Result<Row, Refusal>
    requires { Kept account }
    ensures { result ≡ month_asked account month }
{
    let site = account.site();
    let rows = account.rows();
    if (month < 1) | (MONTHS < month as usize) {
        return Err(Refusal::Month);
    }
    let sums = rows[month as usize - 1];
    Ok(Row {
        sums,
        co2e: site.gwp as u64 * sums.emitted,
    })
}
