//! The line `stack VN`, which names the stack pointer.

ghost use Rattle.std.specs.Prelude.{◌≡◌};
ghost use Rattle.line_reader.specs.Answer.{Does};
ghost use Rattle.listing_lines.specs.Text.{left};
ghost use Rattle.pcode_model.specs.Spaces.{address_bytes};
ghost use Rattle.pcodetext.specs.Meaning.{step_by};
ghost use Rattle.pcodetext.specs.StackLine.{stack_form};

use crate::checks::is_complete;
use crate::fault::{LineFault, Why};
use crate::line_kinds::Form;
use crate::partial_listing::PartialListing;
use crate::tables::SpaceTable;
use crate::written::{Written, range};
use listing_lines::next_part;
use pcode_model::SpaceKind;
use pcode_model::ranges::number_of;

/// The form of what stands after `stack`.
pub fn stack_form(spaces: &SpaceTable, rest: &[u8]) -> Form
    ensures { result ≡ stack_form spaces.now (left 32 rest.now) }
{
    let Some((part, rest)) = next_part(b' ', rest) else {
        return Form::Nothing;
    };
    if next_part(b' ', rest).is_some() {
        return Form::Nothing;
    }
    match range(spaces, part) {
        Some(range) => Form::Stack(range),
        None => Form::Nothing,
    }
}

// The bytes of an offset in the first ram space.
fn address_bytes(spaces: &SpaceTable) -> u32
    ensures { result ≡ address_bytes spaces.now }
{
    let spaces = spaces.as_slice();
    match spaces.get(number_of(SpaceKind::Ram, spaces)) {
        Some(space) => u32::from(space.size),
        None => 0,
    }
}

impl PartialListing {
    /// The line `stack VN`.
    pub fn stack(&mut self, range: Written) -> Result<(), LineFault>
        ensures { Does (step_by self.old (Form.Stack range)) self.new result }
    {
        if !is_complete(&self.spaces) || self.stack.is_some() || !self.protos.is_empty() {
            return Err(LineFault::Fault(Why::Order));
        }
        if range.space.is_unknown() {
            return Err(LineFault::Fault(Why::Unknown));
        }
        if !range.space.is_of_kind(SpaceKind::Register, &self.spaces) {
            return Err(LineFault::Fault(Why::Range));
        }
        if range.size <= 1 || range.size != address_bytes(&self.spaces) {
            return Err(LineFault::Fault(Why::Range));
        }
        if range.leaves_space(&self.spaces) {
            return Err(LineFault::Fault(Why::Range));
        }
        self.stack = Some(range.varnode());
        Ok(())
    }
}
