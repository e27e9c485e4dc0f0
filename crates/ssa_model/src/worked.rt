//! Worked SSA functions. Each function is a law: it does nothing.

ghost use Rattle.ssa_model.specs.Edits.{IsSsa};
ghost use Rattle.ssa_model.specs.Examples.{sum_loop};
ghost use Rattle.ssa_model.specs.Outline.{form};
ghost use Rattle.ssa_model.specs.Worked.{Runs};

/// The loop is strict and formed.
pub fn sum_is_ssa()
    ensures { IsSsa (form sum_loop) }
{}

/// What the loop, the endless loop and the switch show.
pub fn runs()
    ensures { Runs }
{}
