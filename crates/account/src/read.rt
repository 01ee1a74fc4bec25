// Reading an account.
ghost use Rattle.std.specs.Prelude.{◌≡◌};
ghost use Rattle.account.specs.Kept.{Kept};

use crate::Account;
use rows::MONTHS;
use site::Site;
use sums::Sums;
use tool06::Figures;

impl Account {
    pub fn site(self) -> Site
        requires { Kept self }
        ensures { result ≡ self.site }
    {
        self.site
    }

    pub fn sums(self) -> Sums
        requires { Kept self }
        ensures { result ≡ self.sums }
    {
        self.sums
    }

    // The minute expected next, which is the number of those accepted.
    pub fn minutes(self) -> u32
        requires { Kept self }
        ensures { result ≡ self.sums.minutes }
    {
        let sums = self.sums;
        sums.minutes
    }

    pub fn counts(self) -> [u32; Figures::RULES]
        requires { Kept self }
        ensures { result ≡ self.counts }
    {
        self.counts
    }

    // The sums of each month, from January on.
    pub fn rows(self) -> [Sums; MONTHS]
        requires { Kept self }
        ensures { result ≡ self.rows }
    {
        self.rows
    }
}
