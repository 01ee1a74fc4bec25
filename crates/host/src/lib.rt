// A single minute, for host programs in C or Rust: numbers and byte slices only.
#![tactic(auto)]

ghost use Rattle.std.specs.Prelude.{◌≡◌, length};
ghost use Rattle.tool06.specs.Tool.{Masses, Positive};
ghost use Rattle.records.specs.House.{answered};
ghost use Rattle.host.specs.Single.{since_in_time, answer_bytes, single, single_figures, returned, answer_after};

use minute::Minute;
use refusals::Refusal;
use site::Site;
use tool06::Figures;

fn in_time(site: Site, days: u16) -> bool
    ensures { result ≡ since_in_time site days }
{
    (days != Site::NEVER) & (days <= site.days)
}

fn fill(answer: &mut [u8], figures: Figures)
    requires { length answer.old ≡ 25 }
    ensures { answer.new ≡ answer_bytes figures }
{
    numbers::put(answer, 0, figures.fed);
    numbers::put(answer, 8, figures.emitted);
    numbers::put(answer, 16, figures.destroyed);
    numbers::put(answer, 24, figures.rule);
}

// The figures, or the first of the refusals 1 to 9 and the minute's 1, 2 and 12 to 19: what the call comes to with any buffer of the right size.
fn judged(site: &[u8], minute: &[u8], days: u16) -> Result<Figures, Refusal>
    ensures { (answer : _) → length answer ≡ 25 → (m : Masses) → Positive m → result ≡ answered (single_figures m site.now minute.now days) (single site.now minute.now answer) }
{
    let site = reading::read_site(site)?;
    records::head(minute, Minute::BYTES, Minute::VERSION)?;
    judge::judge_single(site, reading::minute_in(minute), in_time(site, days))
}

// 0 and the answer, or the number of the first of the refusals 22, 1 to 9, the minute's 1, 2 and 12 to 19, and the buffer as it was.
pub fn flare_minute(site: &[u8], minute: &[u8], days: u16, answer: &mut [u8]) -> u8
    ensures { (result ≡ returned (single site.now minute.now answer.old)) × ((m : Masses) → Positive m → answer.new ≡ answer_after m site.now minute.now days answer.old) }
{
    if answer.len() != Figures::ANSWER_BYTES {
        return Refusal::Buffer.number();
    }
    match judged(site, minute, days) {
        Err(r) => r.number(),
        Ok(figures) => {
            fill(answer, figures);
            0
        }
    }
}
