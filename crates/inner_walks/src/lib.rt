// Walks inside a part: definitions and laws only.
#![tactic(auto)]
