//! A block of its own for the entry.

ghost use Rattle.std.specs.Prelude.{◌≡◌, ◌<◌, ◌-◌, ◌^◌, [], length, map, reverse, IfOk};
ghost use Rattle.blockcode.specs.Numbers.{AreNumbered, ExitBelow, ExitsBelow};
ghost use Rattle.entry_block.specs.Entered.{begun_apart, entered as entered_by, first_block as first_of, shifted_block as block_shifted, some_names};

use crate::exits::{names, shifted_exit};
use bits_core::Memory;
use blockcode::{Block, Blocks, Code, Exit};
use cmeaning::Body;
use std::alloc::Global;

// Whether an exit of the blocks names the entry.
fn is_led(entry: u32, blocks: &[Block]) -> bool
    ensures { result ≡ some_names entry blocks.now }
{
    for block in blocks {
        if names(entry, &block.exit) {
            return true;
        }
    }
    false
}

fn shifted_block(alloc: Global, entry: u32, count: u32, block: Block) -> Result<Block, Memory>
    requires few { count < 2 ^ 32 - 1 }
    requires below { ExitBelow count block.exit }
    ensures { IfOk result (λ moved. moved ≡ block_shifted entry block) }
{
    let Block { body, exit } = block;
    let exit = shifted_exit(alloc, entry, count, exit)?;
    Ok(Block { body, exit })
}

// The blocks under their new numbers, in order.
fn shifted_blocks(alloc: Global, entry: u32, blocks: Blocks) -> Result<Vec<Block>, Memory>
    requires few { length blocks < 2 ^ 32 - 1 }
    requires below { ExitsBelow (length blocks) blocks }
    ensures { IfOk result (λ moved. moved.items ≡ map (block_shifted entry) blocks) }
{
    let count = blocks.len() as u32;
    let mut blocks = blocks;
    let mut moved = vec![in alloc]?;
    while let Some(block) = blocks.pop() {
        moved.push(shifted_block(alloc, entry, count, block)?)?;
    }
    moved.reverse();
    Ok(moved)
}

fn first_block(alloc: Global, entry: u32) -> Block
    requires { entry < 2 ^ 32 - 1 }
    ensures { result ≡ first_of entry }
{
    Block {
        body: Body::new(alloc),
        exit: Exit::Jump(entry + 1),
    }
}

fn entered(alloc: Global, code: Code) -> Result<Code, Memory>
    requires { AreNumbered code }
    ensures { IfOk result (λ r. r ≡ entered_by code) }
{
    let Code {
        variables,
        blocks,
        entry,
    } = code;
    let mut blocks = shifted_blocks(alloc, entry, blocks)?;
    blocks.insert(entry as usize, first_block(alloc, entry))?;
    Ok(Code {
        variables,
        blocks: Blocks::from_vec(blocks),
        entry,
    })
}

/// The code, with an empty block directly before the entry's where an edge leads to it. Asked is that the entry and the
/// exits name blocks of the code, and that these are fewer than 2^32 - 1. `Memory` where memory runs out.
pub fn begin_apart(alloc: Global, code: Code) -> Result<Code, Memory>
    requires { AreNumbered code }
    ensures { IfOk result (λ r. r ≡ begun_apart code) }
{
    if is_led(code.entry, code.blocks.as_slice()) {
        entered(alloc, code)
    } else {
        Ok(code)
    }
}
