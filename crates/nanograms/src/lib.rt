// Whole nanograms of methane, rounded up once from the exact fraction.
#![tactic(auto)]

ghost use Rattle.std.specs.Prelude.{◌≡◌, ◌+◌, ◌*◌, ◌≤◌, ◌<◌, ◌^◌, min};
ghost use Rattle.exact.specs.Rounding.{ceil_div};
ghost use Rattle.tool06.specs.scaffold.Nanograms.{P, Q, emitted_ng, Measurable, Takes};
ghost use Rattle.tool06.specs.Short.{K, K_plus, K_minus, F_RG_ng, five_LKf};

use minute::{Gas, Minute};
use tool06::{Figures, Loss};

pub fn ceil_div(x: u64, a: u64) -> u64
    requires { (0 < a) × (x + a ≤ 2 ^ 64) }
    ensures { result ≡ ceil_div x a }
{
    x.div_ceil(a)
}

pub fn fed_ng(minute: Minute) -> u64
    requires { F_RG_ng minute ≤ 71600000000000 }
    ensures { result ≡ F_RG_ng minute }
{
    let gas = minute.gas;
    Gas::DENSITY * minute.litres as u64 * gas.ch4 as u64
}

fn weight(gas: Gas) -> u64
    requires { K_minus gas ≤ K_plus gas }
    ensures { result ≡ K gas }
{
    Gas::K_CH4 * gas.ch4 as u64
        + Gas::K_CO * gas.co as u64
        + Gas::K_CO2 * gas.co2 as u64
        + Gas::K_H2 * gas.h2 as u64
        + Gas::K_H2S * gas.h2s as u64
        + Gas::K_NH3 * gas.nh3 as u64
        + Gas::K_N2 * gas.n2 as u64
        - Gas::K_O2 * gas.o2 as u64
}

fn five_lkf(minute: Minute) -> u64
    requires { Measurable minute }
    ensures { result ≡ five_LKf minute }
{
    let exhaust = minute.exhaust;
    5 * minute.litres as u64 * weight(minute.gas) * exhaust.methane as u64
}

// So many millionths of fed.
fn share_ng(fed: u64, millionths: u64) -> u64
    requires { (fed ≤ 71600000000000) × (millionths ≤ 1000000) }
    ensures { result ≡ ceil_div (millionths * fed) 1000000 }
{
    fed / Loss::ALL * millionths + ceil_div(fed % Loss::ALL * millionths, Loss::ALL)
}

// x P / (2 Q air) and so many tenths of fed, at most fed. Ten times x would not fit, and x P need not.
fn measured_ng(fed: u64, tenths: u64, x: u64, air: u64) -> u64
    requires { (fed ≤ 71600000000000) × (tenths ≤ 1) × (x ≤ 17900000000000000000) × (0 < air) × (air ≤ 210000) }
    ensures { result ≡ ceil_div (min (5 * (x * P) + Q * (air * (tenths * fed))) (fed * (10 * (Q * air)))) (10 * (Q * air)) }
{
    let digit = air * (tenths * (fed % Loss::ALL_TENTHS));
    let rest = ceil_div(5 * (x % Loss::Q) * Loss::P + Loss::Q * digit, 5 * Loss::Q);
    let up = ceil_div(x / Loss::Q * Loss::P + rest, 2 * air);
    (tenths * (fed / Loss::ALL_TENTHS) + up).min(fed)
}

pub fn emitted_ng(loss: Loss, minute: Minute, fed: u64) -> u64
    requires { (fed ≡ F_RG_ng minute) × (fed ≤ 71600000000000) × Takes loss minute }
    ensures { result ≡ emitted_ng loss minute }
{
    match loss {
        Loss::Share(millionths) => share_ng(fed, millionths),
        Loss::Measured(tenths) => {
            let exhaust = minute.exhaust;
            let air = (Figures::AIR_OXYGEN - exhaust.oxygen) as u64;
            measured_ng(fed, tenths, five_lkf(minute), air)
        }
    }
}
