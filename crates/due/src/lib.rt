// The minute that is due: what a record is answered where it is expected.
#![tactic(auto)]

ghost use Rattle.std.specs.Prelude.{◌≡◌};
ghost use Rattle.due.specs.Answer.{is_full, in_time_at, answer};
ghost use Rattle.maintenance.specs.Days.{KeptList};
ghost use Rattle.site.specs.Rules.{Examined};
ghost use Rattle.tool06.specs.Tool.{Masses, Positive};

use maintenance::Maintenance;
use minute::Minute;
use refusals::{Refusal, Verdict};
use site::Site;
use tool06::Figures;

// The flare's site and its maintenance list, and the minute of the year that is expected.
#[derive(Clone, Copy)]
pub struct Due {
    pub site: Site,
    pub maintenance: Maintenance,
    pub minute: u32,
}

impl Due {
    // Whether the year's last minute is in.
    pub fn is_full(self) -> bool
        ensures { result ≡ is_full self }
    {
        let site = self.site;
        site.minutes() <= self.minute
    }

    // Whether maintenance is in time on a minute's own day.
    fn in_time(self, number: u32) -> bool
        requires { KeptList self.maintenance }
        ensures { result ≡ in_time_at self number }
    {
        let maintenance = self.maintenance;
        let days = maintenance.days;
        let listed = maintenance.listed;
        let site = self.site;
        maintenance::in_time(&days[0..listed], number / Site::DAY_MINUTES, site.days)
    }

    // The minute's figures and rule, or the first of the refusals 11, 1, 2 and 12 to 19.
    pub fn answer(self, bytes: &[u8]) -> Result<Figures, Refusal>
        requires examined { Examined self.site }
        requires kept_list { KeptList self.maintenance }
        ensures { (m : Masses) → Positive m → result ≡ answer m self bytes.now }
    {
        let head = records::head(bytes, Minute::BYTES, Minute::VERSION);
        Ok(()).also(self.is_full(), Refusal::Full).then(head)?;
        let minute = reading::minute_in(bytes);
        let in_time = self.in_time(minute.number);
        judge::judge(self.site, minute, minute.number != self.minute, in_time)
    }
}
