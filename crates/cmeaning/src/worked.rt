//! Worked runs. Each function is a law: it does nothing, and its contract is what small listings and C functions show.

ghost use Rattle.cmeaning.specs.Worked.{OneAddition, DivisionByZero, UndefinedRuns, Calls, NeverReturns};
ghost use Rattle.cmeaning.specs.Worked.{ReadOnlyStore, LeftByCall, RunsTwice, FlatCode, RelativeBranch, ShiftByWidth};
ghost use Rattle.cmeaning.specs.Worked.{Wraps, GoesOnAtZero, RegisterAsMemory};

/// The sum of an argument and 1.
pub fn one_addition()
    ensures { OneAddition }
{}

/// A division by 0 ends a run before what follows it.
pub fn division_by_zero()
    ensures { DivisionByZero }
{}

/// Running past the end, and operands that were never assigned.
pub fn undefined_runs()
    ensures { UndefinedRuns }
{}

/// A call takes an answer, which may write memory; without one left the run ends.
pub fn calls()
    ensures { Calls }
{}

/// A call of a function that is declared never to return.
pub fn never_returns()
    ensures { NeverReturns }
{}

/// A store that meets a read-only byte.
pub fn read_only_store()
    ensures { ReadOnlyStore }
{}

/// A register that isn't kept holds what the call left there.
pub fn left_by_call()
    ensures { LeftByCall }
{}

/// A loop that counts down from 2.
pub fn runs_twice()
    ensures { RunsTwice }
{}

/// Where the steps of a body's flat code lead.
pub fn flat_code()
    ensures { FlatCode }
{}

/// Branches by a count, within an instruction.
pub fn relative_branch()
    ensures { RelativeBranch }
{}

/// A shift by the number of bits.
pub fn shift_by_width()
    ensures { ShiftByWidth }
{}

/// The least and the greatest width, at both ends.
pub fn wraps()
    ensures { Wraps }
{}

/// An access past the end of a space.
pub fn goes_on_at_zero()
    ensures { GoesOnAtZero }
{}

/// A register that is read as memory, so that no parameter is needed: the same is shown, but the function doesn't fit.
pub fn register_as_memory()
    ensures { RegisterAsMemory }
{}
