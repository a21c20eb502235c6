// No code: the laws that walks by hand share stand in proofs/.
#![tactic(auto)]
