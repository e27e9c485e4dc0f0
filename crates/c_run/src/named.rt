//! Spaces by their names.

ghost use Rattle.std.specs.Prelude.{◌≡◌};
ghost use Rattle.cmeaning.specs.Do.{same_name as is_same_name, space_named};

use pcode_model::Space;

#[tactic(auto, using(crate::proofs::Lengths::names_of_lengths))]
fn same_name(a: &[u8], b: &[u8]) -> bool
    ensures { result ≡ is_same_name a.now b.now }
{
    if a.len() != b.len() {
        return false;
    }
    for i in 0..a.len() {
        if a[i] != b[i] {
            return false;
        }
    }
    true
}

/// The number of the first space of a name, or how many spaces there are.
pub(crate) fn number_named(name: &[u8], spaces: &[Space]) -> usize
    ensures { result ≡ space_named name.now spaces.now }
{
    for i in 0..spaces.len() {
        if same_name(name, spaces[i].name.as_slice()) {
            return i;
        }
    }
    spaces.len()
}
