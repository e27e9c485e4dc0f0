//! The whole lowering.

ghost use Rattle.std.specs.Prelude.{◌≡◌, ◌<◌, ◌≤◌, ◌^◌, length, IfOk};
ghost use Rattle.pcode_model.specs.Flow.{AreApart, starts_of};
ghost use Rattle.pcode_model.specs.Frame.{frame_of};
ghost use Rattle.op_code.specs.FrameTable.{HasFrameRanges};
ghost use Rattle.op_code.specs.Lowered.{lowered, place_number, result_width as width_for, same_place as is_same};

use crate::blocks::blocks;
use crate::variables::{ranges, variables};
use bits_core::{Memory, Width};
use blockcode::Code;
use instructions::result_range;
use op_code::{FrameTable, LeftTable, Table};
use op_values::width_by;
use pcode_model::{Atoms, Block as FlowBlock, Flow, Frame, Listing, Place};
use std::alloc::Global;

fn same_place(p: Place, q: Place) -> bool
    ensures { result ≡ is_same p q }
{
    p.address == q.address && p.index == q.index
}

// The number of the block that begins at the place, or the number of blocks where none does. Blocks without places
// aren't counted.
fn block_number(blocks: &[FlowBlock], start: Place) -> u32
    requires { length blocks.now < 2 ^ 32 }
    ensures { result ≡ place_number (starts_of blocks.now) start }
{
    let mut number = 0;
    for block in blocks {
        if let Some(first) = block.places.as_slice().first() {
            if same_place(*first, start) {
                return number;
            }
            number += 1;
        }
    }
    number
}

/// The plain lowering of a listing with this frame: the variables are the atoms, all of them parameters, and behind
/// them the locals that statements need; the blocks are those of the flow. `Memory` where memory or the numbers of 32
/// bits run out.
pub fn plain(
    alloc: Global,
    listing: &Listing,
    frame: &Frame,
    flow: &Flow,
    atoms: &Atoms,
) -> Result<Code, Memory>
    requires code { AreApart listing.now.code }
    requires frame { HasFrameRanges listing.now }
    requires atoms { length atoms.now < 2 ^ 32 }
    requires blocks { length flow.now < 2 ^ 32 }
    ensures code { IfOk result (λ k. k ≡ lowered listing.now (frame_of listing.now frame.now) flow.now atoms.now) }
    ensures few { IfOk result (λ k. length k.variables ≤ 2 ^ 32) }
{
    let ranges = ranges(alloc, listing, atoms.as_slice())?;
    let table = Table::new(alloc, &ranges)?;
    let frame = FrameTable::new(alloc, listing, frame)?;
    let left = LeftTable::new(alloc, listing, &ranges)?;
    let mut variables = variables(alloc, atoms.as_slice())?;
    let blocks = blocks(
        alloc,
        listing,
        &frame,
        &table,
        &left,
        &mut variables,
        flow.as_slice(),
    )?;
    let start = Place {
        address: listing.func.address,
        index: 0,
    };
    Ok(Code {
        variables,
        blocks,
        entry: block_number(flow.as_slice(), start),
    })
}

/// The width of the function's result, where its prototype has one.
pub fn result_width(listing: &Listing) -> Option<Width>
    ensures { result ≡ width_for listing.now }
{
    match result_range(listing) {
        Some(range) => Some(width_by(range.size)),
        None => None,
    }
}
