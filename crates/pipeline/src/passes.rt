// From the bytes of a listing to the text of its C: the passes in their order.
ghost use Rattle.std.specs.Prelude.{◌-◌, ◌^◌, ◌≤◌, length, IfErr, IfOk, OnOk};
ghost use Rattle.pipeline.specs.Passed.{HasPassed, Lowers};
ghost use Rattle.pipeline.specs.Verdict.{IsAccepted, IsCause, MayPrint};

use crate::verdict::{Accepted, accept};
use bits_core::Memory;
use cmeaning::CFunction;
use ctext::print_c;
use layout::{callees, laid_out, plain_head};
use pcode_model::{Name, Text};
use plaincode::{plain, result_width};
use refusals::Refusal;
use std::alloc::Global;

/// The C of a listing, or why there is none.
pub fn decompile(alloc: Global, bytes: &[u8]) -> Result<Text, Refusal>
    requires { length bytes.now ≤ 2 ^ 32 - 2 }
    ensures accepted { OnOk result (IsAccepted bytes.now) }
    ensures text { IfOk result (λ text. MayPrint bytes.now text.items) }
    ensures refused { IfErr result (IsCause bytes.now) }
{
    let accepted = accept(alloc, bytes)?;
    let function = lower(alloc, &accepted)?;
    let text = print_c(alloc, &function)?;
    Ok(text)
}

/// The C function of a listing that is accepted: the plain lowering, and its layout.
pub fn lower(alloc: Global, accepted: &Accepted) -> Result<CFunction, Memory>
    requires { HasPassed accepted.now }
    ensures { IfOk result (Lowers accepted.now.listing accepted.now.frame) }
{
    let listing = &accepted.listing;
    let code = plain(
        alloc,
        listing,
        &accepted.frame,
        &accepted.flow,
        &accepted.atoms,
    )?;
    let name = Name::from_slice(alloc, listing.func.name.as_slice())?;
    let callees = callees(alloc, listing, &code)?;
    let head = plain_head(
        alloc,
        name,
        result_width(listing),
        callees,
        code.variables.as_slice(),
    )?;
    let function = laid_out(alloc, head, code)?;
    Ok(function)
}
