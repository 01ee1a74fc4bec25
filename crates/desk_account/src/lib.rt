// The calls of the desk that open its account and add to it.
#![tactic(auto)]

pub mod adding;
pub mod opening;

use answers::Answers;

// The answer where no account is open and a call takes one.
pub fn no_account(out: &mut Answers) {
    out.text(b"no account\n");
}
