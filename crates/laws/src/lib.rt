// What follows from the definitions of crate planning: laws (proofs/). There is no code here.

#![tactic(auto)]
