// The demands on the checker: theorems about the contract of `verdict::check`, no code.
#![tactic(auto)]
