//! Laws. Each function does nothing, and its contract is the law.

ghost use Rattle.parts.specs.Laws.{ValueOfReplaced, DoneByParts, ChangedByParts, RightIsTotal};

/// The value of an expression with expressions in the place of its variables.
pub fn value_of_replaced()
    ensures { ValueOfReplaced }
{}

/// What a simple statement does, by its parts.
pub fn done_by_parts()
    ensures { DoneByParts }
{}

/// The parts of a statement that is changed.
pub fn changed_by_parts()
    ensures { ChangedByParts }
{}

/// Expressions that obey the rules of a valid tree.
pub fn right_is_total()
    ensures { RightIsTotal }
{}
