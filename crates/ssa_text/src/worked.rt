//! Worked texts. The function is a law: it does nothing.

ghost use Rattle.ssa_text.specs.Worked.{Texts};

/// A loop with two MULTIEQUALs, an endless loop, and a switch over each other kind of line.
pub fn texts()
    ensures { Texts }
{}
