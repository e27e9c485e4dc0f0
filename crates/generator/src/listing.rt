//! The listing with a number, and its text.

ghost use Rattle.std.specs.Prelude.{◌≡◌, ◌∷◌, ◌≤◌, [], IfOk};
ghost use Rattle.generator.specs.Draws.{drawn_at};
ghost use Rattle.generator.specs.Generated.{code_of, generated, generated_text, instructions, placed, proto};

use crate::draws::{DRAWN, draw, next};
use crate::header::{function, proto, spaces};
use crate::shapes::{drawn_ops, returning};
use bits_core::Memory;
use listing_print::print_listing;
use pcode_model::{Callees, Fixeds, Instruction, Instructions, Listing, Ops, Protos, Text};
use std::alloc::{AllocError, Global};

// The instruction of that number.
fn placed(number: u32, ops: Ops) -> Instruction
    ensures { result ≡ placed number ops }
{
    Instruction {
        address: 0x1000 + 4 * u64::from(number),
        length: 4,
        ops,
    }
}

#[tactic(auto, using(crate::proofs::Counted::no_instructions, crate::proofs::Counted::next_instructions))]
fn instructions(alloc: Global, number: u32) -> Result<Instructions, AllocError>
    ensures { IfOk result (λ made. made ≡ instructions (drawn_at number) 2000) }
{
    let mut made = Instructions::new(alloc);
    let mut state = u64::from(number);
    for i in 0..DRAWN {
        let first = next(state);
        let second = next(first);
        let ops = drawn_ops(alloc, &draw(first, second))?;
        made.push(placed(i, ops))?;
        state = second;
    }
    Ok(made)
}

fn code(alloc: Global, number: u32) -> Result<Instructions, AllocError>
    ensures { IfOk result (λ code. code ≡ code_of (drawn_at number)) }
{
    let mut code = instructions(alloc, number)?;
    let ops = returning(alloc)?;
    code.push(placed(DRAWN, ops))?;
    Ok(code)
}

fn protos(alloc: Global) -> Result<Protos, AllocError>
    ensures { IfOk result (λ protos. protos ≡ proto ∷ []) }
{
    let mut protos = Protos::new(alloc);
    protos.push(proto(alloc)?)?;
    Ok(protos)
}

/// The listing with this number. Fails where memory runs out.
#[tactic(auto, unfolding(crate::specs::Generated::generated))]
pub fn generated_listing(alloc: Global, number: u32) -> Result<Listing, Memory>
    ensures { IfOk result (λ listing. listing ≡ generated number) }
{
    let spaces = spaces(alloc)?;
    let protos = protos(alloc)?;
    let func = function(alloc)?;
    let code = code(alloc, number)?;
    Ok(Listing {
        version: 1,
        spaces,
        stack: None,
        protos,
        func,
        callees: Callees::new(alloc),
        fixed: Fixeds::new(alloc),
        code,
    })
}

/// The text of the listing with this number, which is its canonical text. Fails where memory runs out.
pub fn generate(alloc: Global, number: u32) -> Result<Text, Memory>
    ensures { IfOk result (λ text. text.items ≡ generated_text number) }
{
    let listing = generated_listing(alloc, number)?;
    print_listing(alloc, &listing)
}
