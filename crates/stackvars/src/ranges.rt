// The atoms of register and unique ranges.
ghost use Rattle.std.specs.Prelude.{◌≡◌, ◌++◌, OnOk};
ghost use Rattle.pcode_model.specs.Atoms.{one_range};
ghost use Rattle.stackvars.specs.Collected.{atom_of, atoms_of, storage_of};

use bits_core::Memory;
use pcode_model::ranges::number_of;
use pcode_model::{Atom, Listing, ParamStorage, SpaceKind, Varnode};

fn storage_of(listing: &Listing, range: &Varnode) -> Option<ParamStorage>
    ensures { result ≡ storage_of listing.now range.now }
{
    let space = range.space as usize;
    let spaces = listing.spaces.as_slice();
    if space == number_of(SpaceKind::Register, spaces) {
        Some(ParamStorage::Register(range.offset))
    } else if space == number_of(SpaceKind::Unique, spaces) {
        Some(ParamStorage::Unique(range.offset))
    } else {
        None
    }
}

pub(crate) fn push_range(
    out: &mut Vec<Atom>,
    listing: &Listing,
    range: &Varnode,
) -> Result<(), Memory>
    ensures { OnOk result (out.new.items ≡ out.old.items ++ atom_of listing.now range.now) }
{
    if let Some(storage) = storage_of(listing, range) {
        let size = range.size;
        out.push(Atom { storage, size })?;
    }
    Ok(())
}

pub(crate) fn push_ranges(
    out: &mut Vec<Atom>,
    listing: &Listing,
    ranges: &[Varnode],
) -> Result<(), Memory>
    ensures { OnOk result (out.new.items ≡ out.old.items ++ atoms_of listing.now ranges.now) }
{
    for range in ranges {
        push_range(out, listing, range)?;
    }
    Ok(())
}

pub(crate) fn push_optional(
    out: &mut Vec<Atom>,
    listing: &Listing,
    range: Option<Varnode>,
) -> Result<(), Memory>
    ensures { OnOk result (out.new.items ≡ out.old.items ++ atoms_of listing.now (one_range range)) }
{
    match range {
        None => Ok(()),
        Some(range) => push_range(out, listing, &range),
    }
}
