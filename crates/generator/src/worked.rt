//! Worked cases. Each function is a law: it does nothing, and its contract is what holds.

ghost use Rattle.generator.specs.Worked.{Begins};

/// How the text with the number 0 begins.
pub fn text_begins()
    ensures { Begins }
{}
