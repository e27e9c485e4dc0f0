//! Laws. Each function does nothing, and its contract is the law.

ghost use Rattle.entry_block.specs.Laws.{NoneEnters, ShowsTheSame, StaysSound, StaysStrict};

/// A code that begins apart shows what it showed.
pub fn shows_the_same()
    ensures { ShowsTheSame }
{}

/// No edge leads to its entry.
pub fn none_enters()
    ensures { NoneEnters }
{}

/// It is sound where the code is.
pub fn stays_sound()
    ensures { StaysSound }
{}

/// What is live as it is entered has a word where this holds of the code.
pub fn stays_strict()
    ensures { StaysStrict }
{}
