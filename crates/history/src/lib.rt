// Every account that any calls can give, and what is proved of it. It has no function.
#![tactic(auto)]
