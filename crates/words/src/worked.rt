//! Lists of words. Each function is a law: it does nothing, and its contract is what they ask for.

ghost use Rattle.words.specs.Worked.{Refused, Taken};

/// What is taken.
pub fn words_taken()
    ensures { Taken }
{}

/// What is refused.
pub fn words_refused()
    ensures { Refused }
{}
