//! Which listings are built so far: those that the plain lowering covers. The others are refused as `not built`.
#![tactic(auto)]

mod listing;

pub use listing::is_supported;
