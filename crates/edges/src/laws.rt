//! Laws. Each function does nothing, and its contract is the law, or what small blocks show.

ghost use Rattle.edges.specs.Laws.{CodesRunAsBlocks, StrictIsDefined, WithoutDead, UnderNames};
ghost use Rattle.edges.specs.Small.{Swap, LostCopy, AroundLoop, TwoParameters};

/// A code of blocks is the case in which no edge renames.
pub fn codes_run_as_blocks()
    ensures { CodesRunAsBlocks }
{}

/// Strict blocks, whose expressions have values, never read what was not assigned.
pub fn strict_is_defined()
    ensures { StrictIsDefined }
{}

/// Blocks without what isn't live show the same.
pub fn without_dead()
    ensures { WithoutDead }
{}

/// Blocks whose variables go by other names show the same.
pub fn under_names()
    ensures { UnderNames }
{}

/// A swap over an edge, at once, in turn, and by copies.
pub fn swap()
    ensures { Swap }
{}

/// A copy that is lost where two variables that interfere are one.
pub fn lost_copy()
    ensures { LostCopy }
{}

/// A variable that is live around a loop only.
pub fn around_loop()
    ensures { AroundLoop }
{}

/// Two parameters interfere.
pub fn two_parameters()
    ensures { TwoParameters }
{}
