// The numbers of a generated listing.
ghost use Rattle.std.specs.Prelude.{◌≡◌, IfErr, IfOk, length};
ghost use Rattle.cmeaning.specs.declared.tree.CFunction.{CFunction as Function};
ghost use Rattle.ctext.specs.Text.{text_of};
ghost use Rattle.generator.specs.Generated.{generated};
ghost use Rattle.summary.specs.Counts.{counts_of, lines_of};
ghost use Rattle.refusals.specs.declared.refusal.Refusal.TheVariants as refusal;
ghost use Rattle.pipeline.specs.Numbers.{AreNumbersOf};
ghost use Rattle.pipeline.specs.Passed.{HasPassed, Lowers};

use crate::passes::lower;
use crate::verdict::{Accepted, blocks, variables};
use bits_core::Memory;
use frames::frame;
use generator::generated_listing;
use pcode_model::Text;
use refusals::Refusal;
use std::alloc::Global;
use summary::summary_text;

// The listing with this number, its blocks, its frame and its atoms: each listing that is generated is accepted.
fn accept_generated(alloc: Global, number: u32) -> Result<Accepted, Refusal>
    ensures listing { IfOk result (λ accepted. accepted.listing ≡ generated number) }
    ensures passed { IfOk result HasPassed }
    ensures memory { IfErr result (λ fault. fault ≡ refusal.Memory) }
{
    let listing = generated_listing(alloc, number)?;
    let flow = blocks(alloc, &listing)?;
    let frame = frame(alloc, &listing, &flow)?;
    let atoms = variables(alloc, &listing, &flow, &frame)?;
    Ok(Accepted {
        listing,
        flow,
        frame,
        atoms,
    })
}

// The lines of a listing that is accepted and of a C function for it.
fn numbers(alloc: Global, accepted: &Accepted) -> Result<Text, Memory>
    requires { HasPassed accepted.now }
    ensures { IfOk result (λ text. (f : Function) × (Lowers accepted.now.listing accepted.now.frame f × (text.items ≡ lines_of (counts_of accepted.now.listing (length accepted.now.flow) (length accepted.now.atoms) f (text_of f))))) }
{
    let function = lower(alloc, accepted)?;
    let blocks = accepted.flow.len() as u64;
    let atoms = accepted.atoms.len() as u64;
    summary_text(alloc, &accepted.listing, blocks, atoms, &function)
}

/// A line for each: the ops, blocks and atoms of the generated listing with this number, and the gotos and bytes of its C.
/// Fails where memory runs out, and nowhere else.
pub fn generated_numbers(alloc: Global, number: u32) -> Result<Text, Memory>
    ensures { IfOk result (λ text. AreNumbersOf number text.items) }
{
    let Ok(accepted) = accept_generated(alloc, number) else {
        return Err(Memory);
    };
    numbers(alloc, &accepted)
}
