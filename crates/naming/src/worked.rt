//! Worked cases. Each function is a law: it does nothing, and its contract is how a small body is numbered.

ghost use Rattle.naming.specs.Worked.{FirstAppearance, OwnCallee};

/// A parameter that nothing mentions, a variable of two blocks, one met first in a condition, and a callee called twice.
pub fn first_appearance()
    ensures { FirstAppearance }
{}

/// A callee that isn't declared, and the function itself as a callee.
pub fn own_callee()
    ensures { OwnCallee }
{}
