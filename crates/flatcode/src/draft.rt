//! Flat code that is being made.

ghost use Rattle.std.specs.Prelude.{◌∷◌, [], length, OnOk};
ghost use Rattle.flatcode.specs.Steps.{flat_step};
ghost use Rattle.flatcode.specs.Adds.{Adds};

use crate::step::Step;
use bits_core::Memory;

/// The position of a label.
#[derive(Clone, Copy, Debug, PartialEq, Eq)]
pub struct Placed {
    pub label: u32,
    pub position: usize,
}

#[derive(Drop)]
pub struct Draft<'a> {
    pub steps: Vec<Step<'a>>,
    pub labels: Vec<Placed>,
}

pub(crate) fn put_step<'a>(code: &mut Draft<'a>, step: Step<'a>) -> Result<(), Memory>
    ensures { OnOk result (Adds code.old code.new 1 [] (λ place. flat_step place step.entry ∷ [])) }
{
    code.steps.push(step)?;
    Ok(())
}

pub(crate) fn put_label(code: &mut Draft, label: u32) -> Result<(), Memory>
    ensures { OnOk result (Adds code.old code.new 0 ((label, length code.old.steps.items) ∷ []) (λ place. [])) }
{
    let position = code.steps.len();
    code.labels.push(Placed { label, position })?;
    Ok(())
}
