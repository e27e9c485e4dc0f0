//! Tests of what no text says: streams that are made by hand and fail.
#![tactic(auto)]

#[cfg(test)]
mod tests;
