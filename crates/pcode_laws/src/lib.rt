//! Laws of the p-code run, over any memory, and of ops that break no rule: lemmas, no code.
#![tactic(auto)]
