// Lists written entry by entry, where each entry is written and counts if it passes a test: what they come to. Definitions and laws only.
#![tactic(auto)]
