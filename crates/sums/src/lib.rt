// What is added up: minutes, of them those with gas, and methane in mg. One minute's worth and an account's sums are alike.
#![tactic(auto)]

ghost use Rattle.std.specs.Prelude.{◌≡◌};
ghost use Rattle.sums.specs.Sums.{no_sums, ◌⊞◌};
ghost use Rattle.sums.specs.scaffold.Fits.{Fits};

#[derive(Clone, Copy)]
pub struct Sums {
    pub minutes: u32,
    pub gas: u32,
    pub fed: u64,
    pub emitted: u64,
    pub destroyed: u64,
}

impl Sums {
    pub fn none() -> Sums
        ensures { result ≡ no_sums }
    {
        Sums {
            minutes: 0,
            gas: 0,
            fed: 0,
            emitted: 0,
            destroyed: 0,
        }
    }

    // Both together.
    pub fn plus(self, more: Sums) -> Sums
        requires { Fits (self ⊞ more) }
        ensures { result ≡ self ⊞ more }
    {
        Sums {
            minutes: self.minutes + more.minutes,
            gas: self.gas + more.gas,
            fed: self.fed + more.fed,
            emitted: self.emitted + more.emitted,
            destroyed: self.destroyed + more.destroyed,
        }
    }
}
