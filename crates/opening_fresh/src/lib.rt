// What the memory of an empty fleet shows: definitions only.
#![tactic(auto)]
