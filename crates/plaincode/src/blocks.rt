//! Blocks of code from blocks of the flow.

ghost use Rattle.std.specs.Prelude.{◌≡◌, ◌≤◌, ◌^◌, ◌++◌, [], length, IfOk, OnOk};
ghost use Rattle.pcode_model.specs.Flow.{AreApart};
ghost use Rattle.op_code.specs.Adds.{Adds};
ghost use Rattle.op_code.specs.FrameTable.{HasFrameRanges, own_at};
ghost use Rattle.op_code.specs.LeftTable.{IsLeft};
ghost use Rattle.op_code.specs.Lowered.{block_made, blocks_made, place_made};
ghost use Rattle.plaincode.specs.Body.{body_made};

use crate::exits::way_out;
use bits_core::Memory;
use blockcode::{Block, Blocks, Exit, Variables};
use cmeaning::Body;
use instructions::op_at;
use op_code::{FrameTable, LeftTable, Table, add_op};
use pcode_model::{Block as FlowBlock, Listing, Place};
use std::alloc::Global;

/// Adds what stands for the op at a place.
fn add_place(
    alloc: Global,
    listing: &Listing,
    frame: &FrameTable,
    table: &Table,
    left: &LeftTable,
    variables: &mut Variables,
    body: &mut Body,
    place: Place,
) -> Result<(), Memory>
    requires code { AreApart listing.now.code }
    requires frame { HasFrameRanges listing.now }
    requires left { IsLeft listing.now table.now left.now }
    requires few { length variables.old ≤ 2 ^ 32 }
    ensures { OnOk result (Adds variables.old variables.new body.old body.new
        (place_made listing.now (own_at frame.now) table.now (length variables.old) place)) }
{
    match op_at(listing, place) {
        Some(op) => add_op(
            alloc,
            listing,
            &frame.at(place),
            table,
            left,
            variables,
            body,
            op,
        ),
        None => Ok(()),
    }
}

/// What stands for the ops of these places.
#[tactic(auto, using(crate::proofs::Walks::body_from))]
fn body(
    alloc: Global,
    listing: &Listing,
    frame: &FrameTable,
    table: &Table,
    left: &LeftTable,
    variables: &mut Variables,
    places: &[Place],
) -> Result<Body, Memory>
    requires code { AreApart listing.now.code }
    requires frame { HasFrameRanges listing.now }
    requires left { IsLeft listing.now table.now left.now }
    requires few { length variables.old ≤ 2 ^ 32 }
    ensures { IfOk result (λ b. Adds variables.old variables.new [] b
        (body_made listing.now (own_at frame.now) table.now (length variables.old) places.now)) }
{
    let mut body = Body::new(alloc);
    for place in places {
        add_place(
            alloc, listing, frame, table, left, variables, &mut body, *place,
        )?;
    }
    Ok(body)
}

/// The block of code that stands for a block of the flow.
#[tactic(auto, using(crate::proofs::Last::places_last))]
fn block(
    alloc: Global,
    listing: &Listing,
    frame: &FrameTable,
    table: &Table,
    left: &LeftTable,
    variables: &mut Variables,
    block: &FlowBlock,
) -> Result<Block, Memory>
    requires code { AreApart listing.now.code }
    requires frame { HasFrameRanges listing.now }
    requires left { IsLeft listing.now table.now left.now }
    requires few { length variables.old ≤ 2 ^ 32 }
    ensures block { IfOk result (λ b.
        b ≡ (block_made listing.now (own_at frame.now) table.now (length variables.old) block.now).block) }
    ensures locals { OnOk result (variables.new
        ≡ variables.old
        ++ (block_made listing.now (own_at frame.now) table.now (length variables.old) block.now).locals) }
    ensures few { OnOk result (length variables.new ≤ 2 ^ 32) }
{
    let places = block.places.as_slice();
    match places.last() {
        Some(last) => {
            let mut body = body(alloc, listing, frame, table, left, variables, places)?;
            let exit = way_out(
                alloc,
                listing,
                table,
                variables,
                &mut body,
                *last,
                &block.exit,
            )?;
            Ok(Block { body, exit })
        }
        None => Ok(Block {
            body: Body::new(alloc),
            exit: Exit::Stop,
        }),
    }
}

/// The blocks of code, one for each block of the flow.
#[tactic(auto, using(crate::proofs::Walks::blocks_from))]
pub(crate) fn blocks(
    alloc: Global,
    listing: &Listing,
    frame: &FrameTable,
    table: &Table,
    left: &LeftTable,
    variables: &mut Variables,
    flow: &[FlowBlock],
) -> Result<Blocks, Memory>
    requires code { AreApart listing.now.code }
    requires frame { HasFrameRanges listing.now }
    requires left { IsLeft listing.now table.now left.now }
    requires few { length variables.old ≤ 2 ^ 32 }
    ensures blocks { IfOk result (λ bs.
        bs ≡ (blocks_made listing.now (own_at frame.now) table.now (length variables.old) flow.now).blocks) }
    ensures locals { OnOk result (variables.new
        ≡ variables.old
        ++ (blocks_made listing.now (own_at frame.now) table.now (length variables.old) flow.now).locals) }
    ensures few { OnOk result (length variables.new ≤ 2 ^ 32) }
{
    let mut blocks = Blocks::new(alloc);
    for from in flow {
        blocks.push(block(alloc, listing, frame, table, left, variables, from)?)?;
    }
    Ok(blocks)
}
