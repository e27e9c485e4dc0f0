//! The state of a run.

use pcode_memory::Whole;
use run_world::{ByteMap, Log};

/// A place. Its address may be past the end of every space.
#[derive(Clone, Copy, Debug, PartialEq, Eq)]
pub struct WidePlace {
    pub address: u128,
    pub index: u32,
}

#[derive(Drop)]
pub struct State {
    pub at: WidePlace,
    /// The bytes of the register space and the unique space.
    pub local: ByteMap,
    pub memory: Whole,
    pub log: Log,
}
