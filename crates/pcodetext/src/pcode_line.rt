//! The line `pcode N`.

ghost use Rattle.std.specs.Prelude.{◌≡◌};
ghost use Rattle.line_reader.specs.Answer.{Does};
ghost use Rattle.listing_lines.specs.Text.{left};
ghost use Rattle.pcodetext.specs.Meaning.{step_by};
ghost use Rattle.pcodetext.specs.PcodeLine.{pcode_form};

use crate::fault::{LineFault, Why};
use crate::line_kinds::Form;
use crate::partial_listing::PartialListing;
use listing_lines::{decimal, next_part};

/// The form of what stands after `pcode`.
pub fn pcode_form(rest: &[u8]) -> Form
    ensures { result ≡ pcode_form (left 32 rest.now) }
{
    let Some((version, rest)) = next_part(b' ', rest) else {
        return Form::Nothing;
    };
    if next_part(b' ', rest).is_some() {
        return Form::Nothing;
    }
    match decimal(version) {
        Some(version) => Form::Pcode(version),
        None => Form::Nothing,
    }
}

impl PartialListing {
    /// The line `pcode N`.
    pub fn pcode(&mut self, version: u32) -> Result<(), LineFault>
        ensures { Does (step_by self.old (Form.Pcode version)) self.new result }
    {
        if self.version.is_none() && !(version == 1 || version == 2) {
            return Err(LineFault::Fault(Why::Version));
        }
        if self.version.is_some() {
            return Err(LineFault::Fault(Why::Order));
        }
        self.version = Some(version as u8);
        Ok(())
    }
}
