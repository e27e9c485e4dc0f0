// The laws of the operations, on which the rules of rewriting, negated conditions and memory stand. Lemmas alone.
#![tactic(auto)]
