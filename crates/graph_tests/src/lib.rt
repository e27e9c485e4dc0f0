//! Tests of the operation graph.
#![tactic(auto)]

#[cfg(test)]
mod tests;
