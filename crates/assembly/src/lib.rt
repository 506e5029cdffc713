// What filling the distance tables reads, what each of its steps leaves, and why that is right: definitions and laws only.
#![tactic(auto)]
