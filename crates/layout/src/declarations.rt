//! The declarations of the functions that a code calls.

ghost use Rattle.std.specs.Prelude.{◌≡◌, [], map, IfOk};
ghost use Rattle.pcode_model.specs.Step.{callee_at, proto_at};
ghost use Rattle.layout.specs.Callees.{called_by, called_in, callee_decl, callees_of, gives_by, name_by, width_passed};

use bits_core::{Memory, Width};
use blockcode::{Block, Code};
use cmeaning::{CName, CalleeDecl, CalleeDecls, Stmt, Widths};
use instructions::{arguments, given, proto_called, returns};
use naming::Addresses;
use op_values::width_by;
use pcode_model::{Listing, Name, Storage};
use std::alloc::Global;

/// Those that are known, and behind them those that statements call.
fn called_too(known: Addresses, statements: &[Stmt]) -> Result<Addresses, Memory>
    ensures { IfOk result (λ all. all ≡ called_by known statements.now) }
{
    let mut known = known;
    for statement in statements {
        if let Stmt::Call { callee, .. } = statement {
            known = known.with(*callee)?;
        }
    }
    Ok(known)
}

fn called(alloc: Global, blocks: &[Block]) -> Result<Addresses, Memory>
    ensures { IfOk result (λ all. all ≡ called_in [] blocks.now) }
{
    let mut known = Addresses::new(alloc);
    for block in blocks {
        known = called_too(known, block.body.as_slice())?;
    }
    Ok(known)
}

fn name_at(alloc: Global, listing: &Listing, address: u64) -> Result<CName, Memory>
    ensures { IfOk result (λ name. name ≡ name_by (callee_at listing.now address)) }
{
    match listing.callee_at(address) {
        Some(callee) => {
            let name = Name::from_slice(alloc, callee.name.as_slice())?;
            Ok(CName::Declared(name))
        }
        None => Ok(CName::Bare),
    }
}

/// The width of the result of a prototype; a function that never returns has none.
fn width_given(listing: &Listing, proto: u32, returns: bool) -> Option<Width>
    ensures { result ≡ gives_by returns (proto_at listing.now proto).gives }
{
    match given(listing, proto) {
        Some(range) if returns => Some(width_by(range.size)),
        _ => None,
    }
}

fn widths_passed(alloc: Global, arguments: &[Storage]) -> Result<Widths, Memory>
    ensures { IfOk result (λ widths. widths ≡ map width_passed arguments.now) }
{
    let mut widths = Widths::new(alloc);
    for argument in arguments {
        let size = match argument {
            Storage::At(range) => range.size,
            Storage::Stack { size, .. } => *size,
        };
        widths.push(width_by(size))?;
    }
    Ok(widths)
}

fn declaration(alloc: Global, listing: &Listing, address: u64) -> Result<CalleeDecl, Memory>
    ensures { IfOk result (λ c. c ≡ callee_decl listing.now address) }
{
    let proto = proto_called(listing, address);
    let returns = returns(listing, address);
    let args = widths_passed(alloc, arguments(listing, proto))?;
    Ok(CalleeDecl {
        name: name_at(alloc, listing, address)?,
        address,
        gives: width_given(listing, proto, returns),
        args,
        returns,
    })
}

/// The declarations of the callees of a code, each address once and in the order of the first calls.
pub fn callees(alloc: Global, listing: &Listing, code: &Code) -> Result<CalleeDecls, Memory>
    ensures { IfOk result (λ declared. declared ≡ callees_of listing.now code.now) }
{
    let called = called(alloc, code.blocks.as_slice())?;
    let mut declared = CalleeDecls::new(alloc);
    for address in called.as_slice() {
        declared = declared.with(alloc, declaration(alloc, listing, *address)?)?;
    }
    Ok(declared)
}
