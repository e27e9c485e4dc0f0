//! What stays the same during a run.

use pcode_model::Listing;
use run_world::{Answer, Setting, Shape};
use std::alloc::Global;

#[derive(Drop)]
pub struct CContext<'a> {
    pub alloc: Global,
    pub listing: &'a Listing,
    /// The answers of the entry.
    pub answers: &'a [Answer],
    pub setting: Setting,
    /// Of the first ram space.
    pub ram: Shape,
    /// Of the register space.
    pub registers: Shape,
    /// Of the unique space.
    pub uniques: Shape,
}
