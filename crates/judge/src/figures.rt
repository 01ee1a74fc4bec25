// A minute judged at its site.
ghost use Rattle.std.specs.Prelude.{◌≡◌, ◌≤◌};
ghost use Rattle.site.specs.Rules.{Examined};
ghost use Rattle.tool06.specs.Judged.{judged, oxygen_wrong, beyond_year};
ghost use Rattle.tool06.specs.scaffold.Nanograms.{Takes, figures_ng};
ghost use Rattle.tool06.specs.Rules.{the_rule};
ghost use Rattle.tool06.specs.Short.{S_negative, F_RG_ng};
ghost use Rattle.tool06.specs.Tool.{Masses, Positive};

use minute::{Gas, Minute};
use refusals::{Refusal, Verdict};
use site::Site;
use tool06::Figures;

// Gas that carries too much oxygen for the equations.
fn s_negative(gas: Gas) -> bool
    ensures { result ≡ S_negative gas }
{
    let plus = Gas::S_CH4 * gas.ch4 as u64
        + Gas::S_CO * gas.co as u64
        + Gas::S_H2 * gas.h2 as u64
        + Gas::S_H2S * gas.h2s as u64
        + Gas::S_NH3 * gas.nh3 as u64;
    plus < Gas::S_O2 * gas.o2 as u64
}

fn oxygen_wrong(site: Site, minute: Minute) -> bool
    ensures { result ≡ oxygen_wrong site minute }
{
    let read = minute.has(Minute::EXHAUST);
    let negative = s_negative(minute.gas);
    (0 < minute.litres) & (site.method == Site::MEASURED) & read & negative
}

// Of a minute that is accepted.
fn figures_of(site: Site, minute: Minute, in_time: bool) -> Figures
    requires { (F_RG_ng minute ≤ 71600000000000) × (minute.exhaust.oxygen ≤ 209999) × Takes (the_rule site minute in_time).loss minute }
    ensures { result ≡ figures_ng site minute in_time }
{
    let rule = rules::rule_of(site, minute, in_time);
    let fed = nanograms::fed_ng(minute);
    let loss = rule.loss;
    let emitted = nanograms::emitted_ng(loss, minute, fed);
    Figures {
        rule: rule.number,
        fed: nanograms::ceil_div(fed, Figures::NANOGRAMS),
        emitted: nanograms::ceil_div(emitted, Figures::NANOGRAMS),
        destroyed: (fed - emitted) / Figures::NANOGRAMS,
    }
}

// The figures, or the first of the refusals 12 to 19, with 13 where the minute is out of order. The site was examined.
pub fn judge(
    site: Site,
    minute: Minute,
    disordered: bool,
    in_time: bool,
) -> Result<Figures, Refusal>
    requires { Examined site }
    ensures { (m : Masses) → Positive m → result ≡ judged m disordered site minute in_time }
{
    minute
        .verdict(disordered)
        .also(oxygen_wrong(site, minute), Refusal::Oxygen)?;
    Ok(figures_of(site, minute, in_time))
}

// The same of a single minute, which is out of order where its year does not have it.
pub fn judge_single(site: Site, minute: Minute, in_time: bool) -> Result<Figures, Refusal>
    requires { Examined site }
    ensures { (m : Masses) → Positive m → result ≡ judged m (beyond_year site minute) site minute in_time }
{
    judge(site, minute, site.minutes() <= minute.number, in_time)
}
