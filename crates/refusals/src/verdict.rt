// What a row of tests comes to: the first refusal, or nothing to refuse.
ghost use Rattle.std.specs.Prelude.{◌≡◌};
ghost use Rattle.refusals.specs.Tables.{also, followed_by};

use crate::refusal::Refusal;

pub trait Verdict {
    // One test more; an earlier refusal stands.
    fn also(self, bad: bool, why: Refusal) -> Self;

    // Another verdict after this one; an earlier refusal stands.
    fn then(self, next: Self) -> Self;
}

impl Verdict for Result<(), Refusal> {
    fn also(self, bad: bool, why: Refusal) -> Result<(), Refusal>
        ensures { result ≡ also self bad why }
    {
        self?;
        if bad { Err(why) } else { Ok(()) }
    }

    fn then(self, next: Result<(), Refusal>) -> Result<(), Refusal>
        ensures { result ≡ followed_by self next }
    {
        self.and(next)
    }
}
