// The call of host, exported for programs in C or Rust under the name that include/flare.h declares.
#![tactic(auto)]

ghost use Rattle.std.specs.Prelude.{◌≡◌};
ghost use Rattle.tool06.specs.Tool.{Masses, Positive};
ghost use Rattle.host.specs.Single.{single, returned, answer_after};

// What host::flare_minute answers.
#[unsafe(no_mangle)]
pub extern "C" fn flare_minute(site: &[u8], minute: &[u8], days: u16, answer: &mut [u8]) -> u8
    ensures { (result ≡ returned (single site.now minute.now answer.old)) × ((m : Masses) → Positive m → answer.new ≡ answer_after m site.now minute.now days answer.old) }
{
    host::flare_minute(site, minute, days, answer)
}
