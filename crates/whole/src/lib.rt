// Signed whole numbers and sums over a count: definitions and laws, no code.
#![tactic(auto)]
