//! The line `end`.

ghost use Rattle.std.specs.Prelude.{◌≡◌};
ghost use Rattle.line_reader.specs.Answer.{Does};
ghost use Rattle.listing_lines.specs.Text.{left};
ghost use Rattle.pcodetext.specs.EndLine.{end_form};
ghost use Rattle.pcodetext.specs.Meaning.{step_by};

use crate::fault::{LineFault, Why};
use crate::line_kinds::Form;
use crate::partial_listing::PartialListing;
use listing_lines::next_part;

/// The form of what stands after `end`.
pub fn end_form(rest: &[u8]) -> Form
    ensures { result ≡ end_form (left 32 rest.now) }
{
    if next_part(b' ', rest).is_some() {
        Form::Nothing
    } else {
        Form::End
    }
}

impl PartialListing {
    /// The line `end`.
    pub fn end(&mut self) -> Result<(), LineFault>
        ensures { Does (step_by self.old Form.End) self.new result }
    {
        if self.last.is_none() || self.ended {
            return Err(LineFault::Fault(Why::Order));
        }
        self.ended = true;
        Ok(())
    }
}
