//! The files that are read, in their order.

ghost use Rattle.std.specs.Prelude.{◌≡◌, ◌≤◌, length, IfOk};
ghost use Rattle.runwords.specs.Request.{plan_of};
ghost use Rattle.pcode_model.specs.Limits.{max_input};
ghost use Rattle.runwords.specs.Fetched.{AllFetched, AreShort};

use crate::plan::Plan;
use outside::{Bytes, ReadEnd, Shelf};
use pcode_model::MAX_INPUT;
use statuses::read_file;
use std::alloc::Global;

/// The bytes of the three files.
#[derive(Debug, Drop)]
pub struct Inputs {
    pub listing: Bytes,
    pub c_text: Bytes,
    pub entry: Bytes,
}

/// The bytes of the three files, which are read one after the other. The first that fails or is too long ends it.
pub fn fetch<H: Shelf>(alloc: Global, shelf: &mut H, plan: &Plan) -> Result<Inputs, ReadEnd>
    ensures fetched { AllFetched (plan_of plan.now) (H.told shelf.old) (H.told shelf.new) result }
    ensures short { IfOk result AreShort }
    ensures files { (H.told shelf.new).files ≡ (H.told shelf.old).files }
    ensures later { (H.told shelf.old).faults ≤ (H.told shelf.new).faults }
{
    let listing = match read_file(alloc, shelf, plan.listing, MAX_INPUT as u32) {
        Ok(bytes) => bytes,
        Err(end) => return Err(end),
    };
    let c_text = match read_file(alloc, shelf, plan.c_text, MAX_INPUT as u32) {
        Ok(bytes) => bytes,
        Err(end) => return Err(end),
    };
    let entry = match read_file(alloc, shelf, plan.entry, MAX_INPUT as u32) {
        Ok(bytes) => bytes,
        Err(end) => return Err(end),
    };
    Ok(Inputs {
        listing,
        c_text,
        entry,
    })
}
