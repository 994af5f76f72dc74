// The rule paper's cases C1 to C12, fields, blocks accepted in part, and its list of errors: definitions and theorems, no code.
#![tactic(auto)]
