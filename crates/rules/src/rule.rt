// The first rule that applies: its number, and what it takes for lost.
ghost use Rattle.std.specs.Prelude.{◌≡◌};
ghost use Rattle.std.specs.Bool.{then_some};
ghost use Rattle.tool06.specs.declared.loss.Loss.TheVariants.{Share};
ghost use Rattle.tool06.specs.Rules.{low_tenth, ruling, the_rule};

use crate::class::class_of;
use minute::Minute;
use site::Site;
use tool06::{Class, Figures, Loss, Ruling};

// The rule of this number, which takes so many millionths for lost, where the test holds.
fn share_if(test: bool, number: u8, millionths: u64) -> Option<Ruling>
    ensures { result ≡ then_some test (record { number = number; loss = Share millionths }) }
{
    test.then_some(Ruling {
        number,
        loss: Loss::Share(millionths),
    })
}

// The tenth that a low flare loses beside all else.
fn low_tenth(class: Class) -> u64
    ensures { result ≡ low_tenth class }
{
    match class {
        Class::Open => 0,
        Class::Low => Loss::LOW_TENTHS,
        Class::Tall => 0,
    }
}

// The first rule that applies, in the order of R19 in docs/RULES.md.
pub fn rule_of(site: Site, minute: Minute, in_time: bool) -> Ruling
    ensures { result ≡ ruling (the_rule site minute in_time) }
{
    let tenth = low_tenth(class_of(site));
    let by_default = Loss::DEFAULT + Loss::LOW * tenth;
    let celsius = minute.temperature;
    let litres = minute.litres;
    let lit = minute.has(Minute::FLAME);
    let felt = minute.has(Minute::TEMPERATURE);
    let read = minute.has(Minute::EXHAUST);
    let open = site.is_open();
    let celsius_unfit = site.temperature.exclude(celsius);
    let litres_unfit = site.flow.exclude(litres);
    let default = site.method == Site::DEFAULT;
    share_if(!(0 < litres), Figures::NO_GAS, Loss::ALL)
        .or(share_if(!lit, Figures::NO_FLAME, Loss::ALL))
        .or(share_if(open, Figures::OPEN, Loss::OPEN))
        .or(share_if(!felt, Figures::NO_TEMPERATURE, Loss::ALL))
        .or(share_if(celsius_unfit, Figures::TEMPERATURE, Loss::ALL))
        .or(share_if(litres_unfit, Figures::FLOW, Loss::ALL))
        .or(share_if(default, Figures::DEFAULT, by_default))
        .or(share_if(!in_time, Figures::OVERDUE, Loss::ALL))
        .or(share_if(!read, Figures::NO_EXHAUST, Loss::ALL))
        .unwrap_or(Ruling {
            number: Figures::MEASURED,
            loss: Loss::Measured(tenth),
        })
}
