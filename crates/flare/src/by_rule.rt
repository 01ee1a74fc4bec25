// The minutes under each rule, in the order in which the first that applies decides.
ghost use Rattle.std.specs.Prelude.{◌<◌};
ghost use Rattle.tool06.specs.Rules.{rule_count};

use program::{Stopped, print};
use text::Page;
use tool06::Figures;

// A line's text is that of the crate `summary`.
fn print_rule(
    rt: &(impl Print + Eprint),
    counts: [u32; Figures::RULES],
    rule: u8,
    words: &[u8],
) -> Result<(), Stopped>
    requires { rule < rule_count }
{
    let mut line = [0u8; 163];
    let mut page = Page {
        buffer: &mut line,
        at: 0,
    };
    summary::put_rule(&mut page, rule, counts[rule as usize], words);
    print(rt, &page)
}

// Nothing follows what could not be printed. Calls and no table, which would have to prove each row's rule below rule_count.
pub(crate) fn print_rules(
    rt: &(impl Print + Eprint),
    counts: [u32; Figures::RULES],
) -> Result<(), Stopped> {
    print_rule(rt, counts, Figures::NO_GAS, b"no gas")?;
    print_rule(rt, counts, Figures::NO_FLAME, b"no flame")?;
    print_rule(rt, counts, Figures::OPEN, b"open flare")?;
    print_rule(rt, counts, Figures::NO_TEMPERATURE, b"temperature missing")?;
    print_rule(
        rt,
        counts,
        Figures::TEMPERATURE,
        b"temperature outside the specification",
    )?;
    print_rule(rt, counts, Figures::FLOW, b"flow outside the specification")?;
    print_rule(rt, counts, Figures::DEFAULT, b"default method")?;
    print_rule(rt, counts, Figures::OVERDUE, b"maintenance overdue")?;
    print_rule(rt, counts, Figures::NO_EXHAUST, b"exhaust readings missing")?;
    print_rule(rt, counts, Figures::MEASURED, b"measured")
}
