// Opening an account.
ghost use Rattle.std.specs.Prelude.{◌≡◌};
ghost use Rattle.account.specs.Opening.{last_day, fresh, opened};

use crate::Account;
use maintenance::Maintenance;
use refusals::{Refusal, Verdict};
use site::Site;
use sums::Sums;
use tool06::Figures;

// The year's last day, counted from 0.
fn last_day(site: Site) -> i16
    ensures { result ≡ last_day site.year }
{
    (site.minutes() / Site::DAY_MINUTES - 1) as i16
}

impl Account {
    // An account with no minute yet.
    fn fresh(site: Site, list: &[i16]) -> Account
        ensures { result ≡ fresh site list.now }
    {
        let rows = rows::none();
        Account {
            site,
            maintenance: Maintenance::of(list),
            sums: Sums::none(),
            counts: [0u32; Figures::RULES],
            rows,
        }
    }

    // An account of this site with this maintenance list, or the first of the refusals 3 to 10.
    pub fn open(site: Site, list: &[i16]) -> Result<Account, Refusal>
        ensures { result ≡ opened site list.now }
    {
        let wrong = maintenance::list_wrong(list, last_day(site));
        site.verdict().also(wrong, Refusal::List)?;
        Ok(Account::fresh(site, list))
    }
}
