//! The line that declares a prototype.

ghost use Rattle.std.specs.Prelude.{◌≡◌, IfOk, codes, false, map};
ghost use Rattle.std.specs.List.{list_any};
ghost use Rattle.line_reader.specs.Answer.{Does};
ghost use Rattle.listing_lines.specs.Text.{left};
ghost use Rattle.pcodetext.specs.Checks.{of_some};
ghost use Rattle.pcodetext.specs.Meaning.{step_by};
ghost use Rattle.pcodetext.specs.ProtoLine.{has_bad_size, is_bad_argument, is_bad_kept, is_bad_proto, is_bad_result, is_far, is_foreign, is_no_argument, is_other, is_stack, is_unknown_proto, meets_result, meets_stack, of_no_argument, of_other, proto_args, proto_form, proto_rest, storage_of};
ghost use Rattle.pcodetext.specs.Convert.{varnode};
ghost use Rattle.pcodetext.specs.Written.{ranges_until};

use crate::checks::{any_unknown, is_complete, is_unknown};
use crate::convert::optional;
use crate::fault::{LineFault, Why};
use crate::line_kinds::Form;
use crate::partial_listing::PartialListing;
use crate::tables::SpaceTable;
use crate::written::{Named, Written, range_or_none, ranges, ranges_until};
use listing_lines::{hexadecimal, is_name, next_part};
use pcode_model::ranges::{is_kind, meets};
use pcode_model::{Name, Proto, SpaceKind, Storage, Varnode};
use sqlite_items::Items;
use std::alloc::{AllocError, Global};

/// `proto NAME args STORE* result VN|none pop HEX keep VN*`.
#[derive(Drop)]
pub struct ProtoLine {
    pub name: Name,
    pub args: Items<Written>,
    pub gives: Option<Written>,
    pub pop: u64,
    pub keep: Items<Written>,
}

// ---- its form

/// The form of what stands after `proto`.
pub fn proto_form(alloc: Global, spaces: &SpaceTable, rest: &[u8]) -> Result<Form, AllocError>
    ensures { IfOk result (λ form. form ≡ proto_form spaces.now (left 32 rest.now)) }
{
    let Some((name, rest)) = next_part(b' ', rest) else {
        return Ok(Form::Nothing);
    };
    let Some((args, rest)) = next_part(b' ', rest) else {
        return Ok(Form::Nothing);
    };
    if !is_name(name) || args != b"args".as_slice() {
        return Ok(Form::Nothing);
    }
    proto_args(alloc, spaces, name, rest)
}

// What stands after `args`.
fn proto_args(
    alloc: Global,
    spaces: &SpaceTable,
    name: &[u8],
    rest: &[u8],
) -> Result<Form, AllocError>
    ensures { IfOk result (λ form. form ≡ proto_args spaces.now name.now (ranges_until (codes "result") spaces.now (left 32 rest.now))) }
{
    let Some((args, rest)) = ranges_until(alloc, b"result", spaces, rest)? else {
        return Ok(Form::Nothing);
    };
    proto_rest(alloc, spaces, name, args, rest)
}

// What stands after `result`.
fn proto_rest(
    alloc: Global,
    spaces: &SpaceTable,
    name: &[u8],
    args: Items<Written>,
    rest: &[u8],
) -> Result<Form, AllocError>
    ensures { IfOk result (λ form. form ≡ proto_rest spaces.now name.now args (left 32 rest.now)) }
{
    let Some((gives, rest)) = next_part(b' ', rest) else {
        return Ok(Form::Nothing);
    };
    let Some((pop, rest)) = next_part(b' ', rest) else {
        return Ok(Form::Nothing);
    };
    let Some((amount, rest)) = next_part(b' ', rest) else {
        return Ok(Form::Nothing);
    };
    let Some((keep, rest)) = next_part(b' ', rest) else {
        return Ok(Form::Nothing);
    };
    if pop != b"pop".as_slice() || keep != b"keep".as_slice() {
        return Ok(Form::Nothing);
    }
    let Some(gives) = range_or_none(spaces, gives) else {
        return Ok(Form::Nothing);
    };
    let Some(pop) = hexadecimal(amount) else {
        return Ok(Form::Nothing);
    };
    let Some(keep) = ranges(alloc, spaces, rest)? else {
        return Ok(Form::Nothing);
    };
    let name = Items::from_slice(alloc, name)?;
    Ok(Form::Proto(ProtoLine {
        name,
        args,
        gives,
        pop,
        keep,
    }))
}

// ---- its faults

impl Named {
    // Whether an argument can't stand there.
    fn is_no_argument(self) -> bool
        ensures { result ≡ is_no_argument self }
    {
        match self {
            Named::Space(_) | Named::Stack => false,
            Named::Unknown => true,
        }
    }

    fn is_stack(self) -> bool
        ensures { result ≡ is_stack self }
    {
        match self {
            Named::Stack => true,
            Named::Space(_) | Named::Unknown => false,
        }
    }

    // Whether it is a known space other than the register space.
    fn is_other(self, spaces: &SpaceTable) -> bool
        ensures { result ≡ is_other spaces.now self }
    {
        match self {
            Named::Space(number) => !is_kind(
                SpaceKind::Register,
                spaces.as_slice(),
                u64::from(number),
            ),
            Named::Stack | Named::Unknown => false,
        }
    }
}

impl Written {
    fn has_bad_size(self) -> bool
        ensures { result ≡ has_bad_size self }
    {
        self.size == 0 || self.size > 16
    }

    fn is_bad_argument(self, said: &PartialListing) -> bool
        ensures { result ≡ is_bad_argument said.now self }
    {
        self.has_bad_size()
            || self.leaves_space(&said.spaces)
            || (self.space.is_stack() && said.stack.is_none())
    }

    fn meets_stack(self, stack: Option<Varnode>) -> bool
        ensures { result ≡ meets_stack stack self }
    {
        match stack {
            Some(stack) => meets(self.offset, self.size, stack.offset, stack.size),
            None => false,
        }
    }

    fn meets_result(self, gives: Option<Written>) -> bool
        ensures { result ≡ meets_result gives self }
    {
        match gives {
            Some(gives) => meets(self.offset, self.size, gives.offset, gives.size),
            None => false,
        }
    }

    fn is_bad_kept(self, said: &PartialListing, gives: Option<Written>) -> bool
        ensures { result ≡ is_bad_kept said.now gives self }
    {
        self.size == 0
            || self.leaves_space(&said.spaces)
            || self.meets_stack(said.stack)
            || self.meets_result(gives)
    }
}

fn is_bad_result(said: &PartialListing, gives: Option<Written>) -> bool
    ensures { result ≡ of_some (is_bad_result said.now) gives }
{
    match gives {
        Some(gives) => {
            gives.has_bad_size()
                || gives.leaves_space(&said.spaces)
                || gives.meets_stack(said.stack)
        }
        None => false,
    }
}

fn is_other(spaces: &SpaceTable, range: Option<Written>) -> bool
    ensures { result ≡ of_some (of_other spaces.now) range }
{
    match range {
        Some(range) => range.space.is_other(spaces),
        None => false,
    }
}

fn any_no_argument(ranges: &[Written]) -> bool
    ensures { result ≡ list_any of_no_argument ranges.now }
{
    for range in ranges {
        if range.space.is_no_argument() {
            return true;
        }
    }
    false
}

fn any_other(spaces: &SpaceTable, ranges: &[Written]) -> bool
    ensures { result ≡ list_any (of_other spaces.now) ranges.now }
{
    for range in ranges {
        if range.space.is_other(spaces) {
            return true;
        }
    }
    false
}

// Whether one of the ranges is above the stack pointer by more than 0xffff bytes.
fn any_far(ranges: &[Written]) -> bool
    ensures { result ≡ list_any is_far ranges.now }
{
    for range in ranges {
        if range.space.is_stack() && range.offset > 0xffff {
            return true;
        }
    }
    false
}

fn any_bad_argument(said: &PartialListing, ranges: &[Written]) -> bool
    ensures { result ≡ list_any (is_bad_argument said.now) ranges.now }
{
    for range in ranges {
        if range.is_bad_argument(said) {
            return true;
        }
    }
    false
}

fn any_bad_kept(said: &PartialListing, gives: Option<Written>, ranges: &[Written]) -> bool
    ensures { result ≡ list_any (is_bad_kept said.now gives) ranges.now }
{
    for range in ranges {
        if range.is_bad_kept(said, gives) {
            return true;
        }
    }
    false
}

// Whether a prototype has a range in a known space other than the register space.
fn is_foreign_proto(spaces: &SpaceTable, line: &ProtoLine) -> bool
    ensures { result ≡ is_foreign spaces.now line.now }
{
    any_other(spaces, line.args.as_slice())
        || is_other(spaces, line.gives)
        || any_other(spaces, line.keep.as_slice())
}

// Whether a prototype has a range in no known space.
fn is_unknown_proto(line: &ProtoLine) -> bool
    ensures { result ≡ is_unknown_proto line.now }
{
    any_no_argument(line.args.as_slice())
        || is_unknown(line.gives)
        || any_unknown(line.keep.as_slice())
}

// Whether a limit on a prototype's ranges is passed.
fn is_bad_proto(said: &PartialListing, line: &ProtoLine) -> bool
    ensures { result ≡ is_bad_proto said.now line.now }
{
    line.args.len() > 16
        || line.keep.len() > 64
        || any_bad_argument(said, line.args.as_slice())
        || is_bad_result(said, line.gives)
        || any_bad_kept(said, line.gives, line.keep.as_slice())
}

// ---- what it says

impl Written {
    // A storage. One on the stack is at most 0xffff bytes above the stack pointer.
    fn storage(self) -> Storage
        requires { is_far self ≡ false }
        ensures { result ≡ storage_of self }
    {
        match self.space {
            Named::Stack => Storage::Stack {
                offset: self.offset as u32,
                size: self.size,
            },
            Named::Space(_) | Named::Unknown => Storage::At(self.varnode()),
        }
    }
}

fn varnodes(alloc: Global, ranges: &[Written]) -> Result<Items<Varnode>, AllocError>
    ensures { IfOk result (λ made. made ≡ map varnode ranges.now) }
{
    let mut made = Items::new(alloc);
    for range in ranges {
        made.push(range.varnode())?;
    }
    Ok(made)
}

fn storages(alloc: Global, ranges: &[Written]) -> Result<Items<Storage>, AllocError>
    requires { list_any is_far ranges.now ≡ false }
    ensures { IfOk result (λ made. made ≡ map storage_of ranges.now) }
{
    let mut made = Items::new(alloc);
    for range in ranges {
        made.push(range.storage())?;
    }
    Ok(made)
}

impl PartialListing {
    /// A line that declares a prototype.
    pub fn proto(&mut self, alloc: Global, line: ProtoLine) -> Result<(), LineFault>
        ensures { Does (step_by self.old (Form.Proto line)) self.new result }
    {
        if is_foreign_proto(&self.spaces, &line) {
            return Err(LineFault::Fault(Why::Syntax));
        }
        if !is_complete(&self.spaces) || self.func.is_some() {
            return Err(LineFault::Fault(Why::Order));
        }
        if is_unknown_proto(&line) {
            return Err(LineFault::Fault(Why::Unknown));
        }
        if self.protos.number(line.name.as_slice()).is_some() {
            return Err(LineFault::Fault(Why::Duplicate));
        }
        if self.protos.is_full() {
            return Err(LineFault::Fault(Why::Range));
        }
        if line.pop > 0xffff {
            return Err(LineFault::Fault(Why::Range));
        }
        if any_far(line.args.as_slice()) {
            return Err(LineFault::Fault(Why::Range));
        }
        if is_bad_proto(self, &line) {
            return Err(LineFault::Fault(Why::Range));
        }
        let ProtoLine {
            name,
            args,
            gives,
            pop,
            keep,
        } = line;
        let args = storages(alloc, args.as_slice())?;
        let keep = varnodes(alloc, keep.as_slice())?;
        let proto = Proto {
            name,
            args,
            gives: optional(gives),
            pop: pop as u32,
            keep,
        };
        self.protos.push(alloc, proto)?;
        Ok(())
    }
}
