// Mg in tonnes.
#![tactic(auto)]

ghost use Rattle.std.specs.Prelude.{◌≡◌, ◌^◌, ◌<◌};
ghost use Rattle.exact.specs.Rounding.{ceil_div};
ghost use Rattle.tonnes.specs.Tonnes.{in_tonnes};

// Mg to a tonne.
pub const TONNE: u64 = 1_000_000_000;

// Whole tonnes, rounded up.
#[tactic(auto, unfolding(exact::specs::Rounding::ceil_div))]
pub fn whole_tonnes(mg: u64) -> u64
    requires { mg < 2 ^ 53 }
    ensures { result ≡ ceil_div mg 1000000000 }
{
    mg.div_ceil(TONNE)
}

// Below 2^53 a whole number is converted without loss; the division is the one rounding.
pub fn in_tonnes(mg: u64) -> f64
    requires { mg < 2 ^ 53 }
    ensures { result ≡ in_tonnes mg }
{
    mg as f64 / TONNE as f64
}
