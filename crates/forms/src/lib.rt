// The forms of the desk: the words that a call's line has, and what is said of a line that is none.
#![tactic(auto)]

pub mod call;
pub mod expected;
pub mod take;
pub mod word;
