//! The lines `func` and `callee`, which name a function.

ghost use Rattle.std.specs.Prelude.{◌≡◌, IfOk};
ghost use Rattle.std.specs.List.{list_any};
ghost use Rattle.line_reader.specs.Answer.{Does};
ghost use Rattle.listing_lines.specs.Text.{left};
ghost use Rattle.pcodetext.specs.FunctionLine.{callee_form, func_form, function_made, function_of, is_first_ram, is_misplaced, is_taken, is_taken_by, returns_by};
ghost use Rattle.pcodetext.specs.Meaning.{step_by};
ghost use Rattle.pcodetext.specs.Written.{place_of};

use crate::fault::{LineFault, Why};
use crate::line_kinds::Form;
use crate::partial_listing::PartialListing;
use crate::tables::{ProtoTable, SpaceTable};
use crate::written::{Named, place};
use listing_lines::{is_name, next_part};
use pcode_model::ranges::number_of;
use pcode_model::{Function, Name, SpaceKind};
use sqlite_items::Items;
use std::alloc::{AllocError, Global};

/// What stands after `func` or `callee`: `NAME SPACE:HEX PROTO`, and in version 2 maybe `noreturn` after a callee's.
#[derive(Drop)]
pub struct FunctionLine {
    pub name: Name,
    pub space: Named,
    pub address: u64,
    /// The number of the prototype of that name, if it is known.
    pub proto: Option<u32>,
    pub returns: bool,
}

// ---- their form

// What stands after `func` or `callee`, where a callee's end has been read.
fn function_made(
    alloc: Global,
    spaces: &SpaceTable,
    protos: &ProtoTable,
    name: &[u8],
    at: &[u8],
    proto: &[u8],
    returns: Option<bool>,
) -> Result<Option<FunctionLine>, AllocError>
    ensures { IfOk result (λ line. line ≡ function_made protos.now name.now proto.now (place_of spaces.now at.now) returns) }
{
    let Some((space, address)) = place(spaces, at) else {
        return Ok(None);
    };
    let Some(returns) = returns else {
        return Ok(None);
    };
    if !is_name(name) || !is_name(proto) {
        return Ok(None);
    }
    let name = Items::from_slice(alloc, name)?;
    Ok(Some(FunctionLine {
        name,
        space,
        address,
        proto: protos.number(proto),
        returns,
    }))
}

/// The form of what stands after `func`.
pub fn func_form(
    alloc: Global,
    spaces: &SpaceTable,
    protos: &ProtoTable,
    rest: &[u8],
) -> Result<Form, AllocError>
    ensures { IfOk result (λ form. form ≡ func_form spaces.now protos.now (left 32 rest.now)) }
{
    let Some((name, rest)) = next_part(b' ', rest) else {
        return Ok(Form::Nothing);
    };
    let Some((at, rest)) = next_part(b' ', rest) else {
        return Ok(Form::Nothing);
    };
    let Some((proto, rest)) = next_part(b' ', rest) else {
        return Ok(Form::Nothing);
    };
    if next_part(b' ', rest).is_some() {
        return Ok(Form::Nothing);
    }
    match function_made(alloc, spaces, protos, name, at, proto, Some(true))? {
        Some(line) => Ok(Form::Func(line)),
        None => Ok(Form::Nothing),
    }
}

// Whether the callee returns, by the end of its line.
fn returns(two: bool, rest: &[u8]) -> Option<bool>
    ensures { result ≡ returns_by two (left 32 rest.now) }
{
    let Some((word, rest)) = next_part(b' ', rest) else {
        return Some(true);
    };
    if next_part(b' ', rest).is_some() {
        return None;
    }
    if two && word == b"noreturn".as_slice() {
        Some(false)
    } else {
        None
    }
}

/// The form of what stands after `callee`.
pub fn callee_form(
    alloc: Global,
    two: bool,
    spaces: &SpaceTable,
    protos: &ProtoTable,
    rest: &[u8],
) -> Result<Form, AllocError>
    ensures { IfOk result (λ form. form ≡ callee_form two spaces.now protos.now (left 32 rest.now)) }
{
    let Some((name, rest)) = next_part(b' ', rest) else {
        return Ok(Form::Nothing);
    };
    let Some((at, rest)) = next_part(b' ', rest) else {
        return Ok(Form::Nothing);
    };
    let Some((proto, rest)) = next_part(b' ', rest) else {
        return Ok(Form::Nothing);
    };
    match function_made(alloc, spaces, protos, name, at, proto, returns(two, rest))? {
        Some(line) => Ok(Form::Callee(line)),
        None => Ok(Form::Nothing),
    }
}

// ---- their faults, and what they say

impl Named {
    // Whether it is the first ram space.
    fn is_first_ram(self, spaces: &SpaceTable) -> bool
        ensures { result ≡ is_first_ram spaces.now self }
    {
        match self {
            Named::Space(number) => number_of(SpaceKind::Ram, spaces.as_slice()) == number as usize,
            Named::Stack | Named::Unknown => false,
        }
    }
}

fn is_taken_by(spaces: &SpaceTable, line: &FunctionLine, function: &Function) -> bool
    ensures { result ≡ is_taken_by spaces.now line.now function.now }
{
    function.name.as_slice() == line.name.as_slice()
        || (line.space.is_first_ram(spaces) && function.address == line.address)
}

fn is_misplaced(spaces: &SpaceTable, line: &FunctionLine) -> bool
    ensures { result ≡ is_misplaced spaces.now line.now }
{
    !line.space.is_first_ram(spaces) || line.space.leaves(spaces, line.address, 1)
}

fn function(line: FunctionLine) -> Function
    ensures { result ≡ function_of line }
{
    let FunctionLine {
        name,
        space: _,
        address,
        proto,
        returns,
    } = line;
    Function {
        name,
        address,
        proto: match proto {
            Some(number) => number,
            None => 0,
        },
        returns,
    }
}

impl PartialListing {
    // Whether the name or the address of a function stands already.
    fn is_taken(&self, line: &FunctionLine) -> bool
        ensures { result ≡ is_taken self.now line.now }
    {
        let is_func = match &self.func {
            Some(func) => is_taken_by(&self.spaces, line, func),
            None => false,
        };
        is_func || self.is_callee(line)
    }

    // Whether a callee has the name or the address.
    fn is_callee(&self, line: &FunctionLine) -> bool
        ensures { result ≡ list_any (is_taken_by self.now.spaces line.now) self.now.callees }
    {
        self.callees.has_name(line.name.as_slice())
            || (line.space.is_first_ram(&self.spaces) && self.callees.has_address(line.address))
    }

    /// A line `func`.
    pub fn func(&mut self, line: FunctionLine) -> Result<(), LineFault>
        ensures { Does (step_by self.old (Form.Func line)) self.new result }
    {
        if self.protos.is_empty() || self.func.is_some() {
            return Err(LineFault::Fault(Why::Order));
        }
        if line.proto.is_none() || line.space.is_unknown() {
            return Err(LineFault::Fault(Why::Unknown));
        }
        if self.is_taken(&line) {
            return Err(LineFault::Fault(Why::Duplicate));
        }
        if is_misplaced(&self.spaces, &line) {
            return Err(LineFault::Fault(Why::Range));
        }
        self.func = Some(function(line));
        Ok(())
    }

    /// A line `callee`.
    pub fn callee(&mut self, alloc: Global, line: FunctionLine) -> Result<(), LineFault>
        ensures { Does (step_by self.old (Form.Callee line)) self.new result }
    {
        if self.func.is_none() || !self.fixed.is_empty() || self.last.is_some() {
            return Err(LineFault::Fault(Why::Order));
        }
        if line.proto.is_none() || line.space.is_unknown() {
            return Err(LineFault::Fault(Why::Unknown));
        }
        if self.is_taken(&line) {
            return Err(LineFault::Fault(Why::Duplicate));
        }
        if self.callees.len() >= 1024 || is_misplaced(&self.spaces, &line) {
            return Err(LineFault::Fault(Why::Range));
        }
        self.callees.push(alloc, function(line))?;
        Ok(())
    }
}
