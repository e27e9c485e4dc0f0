//! The line of read-only bytes.

ghost use Rattle.std.specs.Prelude.{◌≡◌, IfOk};
ghost use Rattle.line_reader.specs.Answer.{Does};
ghost use Rattle.listing_lines.specs.Text.{left};
ghost use Rattle.pcodetext.specs.BytesLine.{bytes_form, is_late};
ghost use Rattle.pcodetext.specs.Meaning.{step_by};

use crate::fault::{LineFault, Why};
use crate::fixed::FixedTable;
use crate::line_kinds::Form;
use crate::partial_listing::PartialListing;
use crate::tables::SpaceTable;
use crate::written::{Named, place};
use listing_lines::{next_part, pairs};
use pcode_model::{Bytes, SpaceKind};
use std::alloc::{AllocError, Global};

/// `bytes SPACE:HEX PAIRS`.
#[derive(Drop)]
pub struct BytesLine {
    pub space: Named,
    pub offset: u64,
    pub bytes: Bytes,
}

/// The form of what stands after `bytes`.
pub fn bytes_form(alloc: Global, spaces: &SpaceTable, rest: &[u8]) -> Result<Form, AllocError>
    ensures { IfOk result (λ form. form ≡ bytes_form spaces.now (left 32 rest.now)) }
{
    let Some((at, rest)) = next_part(b' ', rest) else {
        return Ok(Form::Nothing);
    };
    let Some((digits, rest)) = next_part(b' ', rest) else {
        return Ok(Form::Nothing);
    };
    if next_part(b' ', rest).is_some() {
        return Ok(Form::Nothing);
    }
    let Some((space, offset)) = place(spaces, at) else {
        return Ok(Form::Nothing);
    };
    match pairs(alloc, digits)? {
        Some(bytes) => Ok(Form::Bytes(BytesLine {
            space,
            offset,
            bytes,
        })),
        None => Ok(Form::Nothing),
    }
}

fn is_late(fixed: &FixedTable, space: Named, offset: u64) -> bool
    ensures { result ≡ is_late fixed.now space offset }
{
    match space {
        Named::Space(number) => fixed.stands_after(number, offset),
        Named::Stack | Named::Unknown => false,
    }
}

impl PartialListing {
    /// A line of read-only bytes.
    pub fn bytes(&mut self, line: BytesLine) -> Result<(), LineFault>
        ensures { Does (step_by self.old (Form.Bytes line)) self.new result }
    {
        if self.func.is_none() || self.last.is_some() {
            return Err(LineFault::Fault(Why::Order));
        }
        if is_late(&self.fixed, line.space, line.offset) {
            return Err(LineFault::Fault(Why::Order));
        }
        let Named::Space(space) = line.space else {
            return Err(LineFault::Fault(Why::Unknown));
        };
        if self.fixed.overlaps(space, line.offset, line.bytes.len()) {
            return Err(LineFault::Fault(Why::Duplicate));
        }
        if line.bytes.len() > 4096 {
            return Err(LineFault::Fault(Why::Range));
        }
        if !line.space.is_of_kind(SpaceKind::Ram, &self.spaces) {
            return Err(LineFault::Fault(Why::Range));
        }
        if line
            .space
            .leaves(&self.spaces, line.offset, line.bytes.len() as u32)
        {
            return Err(LineFault::Fault(Why::Range));
        }
        let BytesLine {
            space: _,
            offset,
            bytes,
        } = line;
        self.fixed.push(space, offset, bytes)?;
        Ok(())
    }
}
