// What the product promises, on one page. It has no function.
#![tactic(auto)]
