//! The line that begins an instruction.

ghost use Rattle.std.specs.Prelude.{◌≡◌};
ghost use Rattle.line_reader.specs.Answer.{Does};
ghost use Rattle.listing_lines.specs.Text.{left};
ghost use Rattle.pcodetext.specs.AtLine.{at_form, is_behind};
ghost use Rattle.pcodetext.specs.Checks.{of_some};
ghost use Rattle.pcodetext.specs.Meaning.{step_by};

use crate::fault::{LineFault, Why};
use crate::line_kinds::Form;
use crate::partial_listing::PartialListing;
use listing_lines::{decimal, hexadecimal, next_part};
use pcode_model::Instruction;
use sqlite_items::Items;
use std::alloc::Global;

/// `at HEX LENGTH`.
#[derive(Clone, Copy, Debug, PartialEq, Eq)]
pub struct AtLine {
    pub address: u64,
    pub length: u32,
}

/// The form of what stands after `at`.
pub fn at_form(rest: &[u8]) -> Form
    ensures { result ≡ at_form (left 32 rest.now) }
{
    let Some((address, rest)) = next_part(b' ', rest) else {
        return Form::Nothing;
    };
    let Some((length, rest)) = next_part(b' ', rest) else {
        return Form::Nothing;
    };
    if next_part(b' ', rest).is_some() {
        return Form::Nothing;
    }
    let Some(address) = hexadecimal(address) else {
        return Form::Nothing;
    };
    match decimal(length) {
        Some(length) => Form::At(AtLine { address, length }),
        None => Form::Nothing,
    }
}

fn is_behind(address: u64, last: &Option<Instruction>) -> bool
    ensures { result ≡ of_some (is_behind address) last.now }
{
    match last {
        Some(last) => {
            address <= last.address
                || u128::from(address) < u128::from(last.address) + u128::from(last.length)
        }
        None => false,
    }
}

impl PartialListing {
    /// A line that begins an instruction.
    pub fn at(&mut self, alloc: Global, line: AtLine) -> Result<(), LineFault>
        ensures { Does (step_by self.old (Form.At line)) self.new result }
    {
        if self.func.is_none() || self.ended {
            return Err(LineFault::Fault(Why::Order));
        }
        if is_behind(line.address, &self.last) {
            return Err(LineFault::Fault(Why::Order));
        }
        if line.length == 0 {
            return Err(LineFault::Fault(Why::Range));
        }
        if let Some(last) = self.last.take() {
            self.done.push(last)?;
        }
        self.last = Some(Instruction {
            address: line.address,
            length: line.length,
            ops: Items::new(alloc),
        });
        Ok(())
    }
}
