//! The laws. Each function does nothing but bring in what is known of its function, and its contract is the law.

ghost use Rattle.leaving_laws.specs.Laws.{FunctionsAreCode, IsDefinedFunction, MultiequalsAreCopies};

use pcode_model::Listing;
use ssa_model::SsaFunction;

/// A function in SSA form never ends Undefined.
pub fn functions_are_defined(listing: &Listing, f: &SsaFunction)
    ensures { IsDefinedFunction listing.now f.now.parts }
{
    f.parts().graph.known();
}

/// A function's MULTIEQUALs are copies through fresh variables: before a block is left each of the next block's takes
/// its input, and where that block begins each value takes its variable's word.
pub fn multiequals_are_copies(listing: &Listing, f: &SsaFunction)
    ensures { MultiequalsAreCopies listing.now f.now.parts }
{
    f.parts().graph.known();
}

/// A function shows what its code shows, in which constants stand where they are read.
pub fn functions_are_code(listing: &Listing, f: &SsaFunction)
    ensures { FunctionsAreCode listing.now f.now.parts }
{
    f.parts().graph.known();
}
