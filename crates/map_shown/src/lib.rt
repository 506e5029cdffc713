// What lent words and bytes show of a map: definitions only.
#![tactic(auto)]
