// What an account comes to.
ghost use Rattle.std.specs.Prelude.{◌≡◌};
ghost use Rattle.account.specs.Closing.{co2e, closing, chart};
ghost use Rattle.account.specs.Kept.{Kept};

use crate::Account;
use refusals::Refusal;
use tonnes::{in_tonnes, whole_tonnes};

// Methane fed and CO2 equivalent emitted, in tonnes.
#[derive(Clone, Copy)]
pub struct Point {
    pub fed: f64,
    pub co2e: f64,
}

impl Account {
    // CO2 equivalent of the methane emitted, in mg.
    pub fn co2e(self) -> u64
        requires { Kept self }
        ensures { result ≡ co2e self }
    {
        let site = self.site;
        let sums = self.sums;
        site.gwp as u64 * sums.emitted
    }

    // CO2 equivalent in tonnes, rounded up, or 20 where minutes are missing.
    pub fn close(self) -> Result<u64, Refusal>
        requires { Kept self }
        ensures { result ≡ closing self }
    {
        let mg = self.co2e();
        if self.due().is_full() {
            Ok(whole_tonnes(mg))
        } else {
            Err(Refusal::Incomplete)
        }
    }

    pub fn chart(self) -> Point
        requires { Kept self }
        ensures { result ≡ chart self }
    {
        let sums = self.sums;
        Point {
            fed: in_tonnes(sums.fed),
            co2e: in_tonnes(self.co2e()),
        }
    }
}
