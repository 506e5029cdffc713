// What the refresh of rows does to the memory of a map and a fleet. There is no code: see proofs/.
#![tactic(auto)]
