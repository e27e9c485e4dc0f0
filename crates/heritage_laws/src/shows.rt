//! The laws. Each function does nothing but bring in what is known of its graph, and its contract is the law.

ghost use Rattle.heritage_laws.specs.Laws.{CertifiedIsStrict, CertifiedShows};

use blockcode::Code;
use pcode_model::Listing;
use ssa_model::{Parts, SsaFunction};

/// A function that stands for a code by a certificate is strict.
pub fn certified_is_strict(listing: &Listing, code: &Code, parts: &Parts)
    ensures { CertifiedIsStrict listing.now code.now parts.now }
{
    parts.graph.known();
}

/// A function in SSA form that stands for a code by a certificate shows what the code shows.
pub fn certified_shows(listing: &Listing, code: &Code, f: &SsaFunction)
    ensures { CertifiedShows listing.now code.now f.now.parts }
{
    f.parts().graph.known();
}
