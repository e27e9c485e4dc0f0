//! The body of the function.

ghost use Rattle.std.specs.Prelude.{◌≡◌, ◌-◌, ◌<◌, ◌^◌, length, reverse, IfOk};
ghost use Rattle.blockcode.specs.Laid.{laid_body as body_of};

use crate::lines::{add_block, add_jump};
use crate::named::named;
use bits_core::Memory;
use blockcode::{Block, Blocks, Code};
use cmeaning::Body;
use std::alloc::Global;

// The blocks from the last one to the first.
fn turned(alloc: Global, blocks: Blocks) -> Result<Vec<Block>, Memory>
    ensures { IfOk result (λ v. v.items ≡ reverse blocks) }
{
    let mut blocks = blocks;
    let mut turned = vec![in alloc]?;
    while let Some(block) = blocks.pop() {
        turned.push(block)?;
    }
    Ok(turned)
}

/// The body of a C function that the code stands for, by the code's own numbers. `Memory` where memory runs out.
pub(crate) fn laid_body(alloc: Global, code: Code) -> Result<Body, Memory>
    requires { length code.blocks < 2 ^ 32 - 1 }
    ensures { IfOk result (λ b. b ≡ body_of code) }
{
    let named = named(alloc, &code)?;
    let mut body = Body::new(alloc);
    add_jump(&mut body, 0, code.entry)?;
    let mut blocks = turned(alloc, code.blocks)?;
    let mut number = 0;
    while let Some(block) = blocks.pop() {
        let is_named = named[number as usize];
        add_block(alloc, &mut body, is_named, number, block)?;
        number += 1;
    }
    Ok(body)
}
