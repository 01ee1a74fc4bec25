// Adding a minute.
ghost use Rattle.std.specs.Prelude.{◌≡◌, ◌<◌};
ghost use Rattle.account.specs.Adding.{due, with_gas, worth, with_minute, add_to};
ghost use Rattle.account.specs.Kept.{Kept};
ghost use Rattle.account.specs.scaffold.Small.{Small};
ghost use Rattle.site.specs.Rules.{year_minutes};
ghost use Rattle.tool06.specs.Tool.{Masses, Positive};
ghost use Rattle.tool06.specs.declared.figures.Figures.{Figures};

use crate::Account;
use due::Due;
use refusals::Refusal;
use site::Site;
use sums::Sums;
use tool06::Figures;

// 1 for a minute with gas.
fn with_gas(rule: u8) -> u32
    ensures { result ≡ with_gas rule }
{
    u32::from(rule != Figures::NO_GAS)
}

// What one minute is worth.
fn worth(figures: Figures) -> Sums
    ensures { result ≡ worth figures }
{
    Sums {
        minutes: 1,
        gas: with_gas(figures.rule),
        fed: figures.fed,
        emitted: figures.emitted,
        destroyed: figures.destroyed,
    }
}

impl Account {
    // The minute that is expected next, with what it is answered by.
    pub(crate) fn due(&self) -> Due
        ensures { result ≡ due self.now }
    {
        Due {
            site: self.site,
            maintenance: self.maintenance,
            minute: self.sums.minutes,
        }
    }

    // One minute more.
    fn take(&mut self, figures: Figures)
        requires kept { Kept self.old }
        requires small { Small figures }
        requires minutes_bound { self.old.sums.minutes < year_minutes self.old.site.year }
        ensures { self.new ≡ with_minute self.old figures }
    {
        let one = worth(figures);
        let day = self.sums.minutes / Site::DAY_MINUTES;
        let month = calendar::month_of(day, self.site.year);
        rows::add_in(&mut self.rows, month, one);
        counts::one_more(&mut self.counts, figures.rule);
        self.sums = self.sums.plus(one);
    }

    // Adds a minute from any bytes: its figures, or its refusal, which leaves the account as it is.
    pub fn add(&mut self, bytes: &[u8]) -> Result<Figures, Refusal>
        requires { Kept self.old }
        ensures { (m : Masses) → Positive m → (result ≡ (add_to m self.old bytes.now).answer) × (self.new ≡ (add_to m self.old bytes.now).account) }
    {
        let figures = self.due().answer(bytes)?;
        self.take(figures);
        Ok(figures)
    }
}
