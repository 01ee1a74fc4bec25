// Why a call refuses, and the first of several reasons.
#![tactic(auto)]

mod refusal;
mod verdict;

pub use refusal::Refusal;
pub use verdict::Verdict;
