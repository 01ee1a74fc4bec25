// The minutes under each rule.
#![tactic(auto)]

ghost use Rattle.std.specs.Prelude.{◌≡◌, ◌≤◌, length};
ghost use Rattle.sums.specs.scaffold.Fits.{minutes_most};
ghost use Rattle.tool06.specs.Rules.{rule_count};
ghost use Rattle.counts.specs.Counts.{sum, one_more};

use tool06::Figures;

// One more under a rule, if there is one of that number.
// Each count stands at a place that the compiler knows, so that the account can stay in registers.
#[tactic(auto, using(crate::proofs::Laws::one_within))]
pub fn one_more(counts: &mut [u32; Figures::RULES], rule: u8)
    requires { (length counts.old ≡ rule_count) × (sum counts.old ≤ minutes_most) }
    ensures { counts.new ≡ one_more counts.old rule }
{
    match rule {
        0 => counts[0] += 1,
        1 => counts[1] += 1,
        2 => counts[2] += 1,
        3 => counts[3] += 1,
        4 => counts[4] += 1,
        5 => counts[5] += 1,
        6 => counts[6] += 1,
        7 => counts[7] += 1,
        8 => counts[8] += 1,
        9 => counts[9] += 1,
        _ => {}
    }
}
