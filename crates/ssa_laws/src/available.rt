//! The laws. Each function does nothing but bring in what is known of its functions, and its contract is the law.

ghost use Rattle.ssa_laws.specs.Law.{EquationsHold};
ghost use Rattle.ssa_laws.specs.Quiet.{WithoutQuietShows};
ghost use Rattle.ssa_laws.specs.Replace.{SameWordRunsAlike};
ghost use Rattle.ssa_laws.specs.Retarget.{SameValueRunsAlike};
ghost use Rattle.ssa_laws.specs.Words.{ValuesAreWords};

use pcode_model::Listing;
use ssa_model::SsaFunction;

/// Wherever a value of the function is available, its equation holds.
pub fn available_equations(listing: &Listing, f: &SsaFunction)
    ensures { EquationsHold listing.now f.now.parts }
{
    f.parts().graph.known();
}

/// From an entry of the listing each value holds words of its width.
pub fn values_are_words(listing: &Listing, f: &SsaFunction)
    ensures { ValuesAreWords listing.now f.now.parts }
{
    f.parts().graph.known();
}

/// An op that computes the same value in another way leaves the run equal step by step.
pub fn same_value_runs_alike(listing: &Listing, before: &SsaFunction, after: &SsaFunction)
    ensures { SameValueRunsAlike listing.now before.now.parts after.now.parts }
{
    before.parts().graph.known();
    after.parts().graph.known();
}

/// To read another value, which holds the same there, leaves the run equal step by step.
pub fn same_word_runs_alike(listing: &Listing, before: &SsaFunction, after: &SsaFunction)
    ensures { SameWordRunsAlike listing.now before.now.parts after.now.parts }
{
    before.parts().graph.known();
}

/// Without quiet ops, whose values they alone read, the function shows the same.
pub fn without_quiet_ops(listing: &Listing, before: &SsaFunction, after: &SsaFunction)
    ensures { WithoutQuietShows listing.now before.now.parts after.now.parts }
{
    before.parts().graph.known();
    after.parts().graph.known();
}
