//! The part of a world that isn't memory.

use crate::trace::{End, Events};

/// The answers taken, what was recorded, and the end once there is one.
#[derive(Drop)]
pub struct Log {
    /// How many answers were taken.
    pub taken: usize,
    pub events: Events,
    pub end: Option<End>,
}
