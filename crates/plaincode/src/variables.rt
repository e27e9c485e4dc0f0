//! The variables of the atoms, and the ranges that they stand for.

ghost use Rattle.std.specs.Prelude.{◌≡◌, map, IfOk};
ghost use Rattle.op_code.specs.FrameTable.{HasFrameRanges};
ghost use Rattle.op_code.specs.Lowered.{range_of as range_for, ranges_of, variable_for};

use bits_core::Memory;
use blockcode::{Variable, Variables};
use op_code::{frame_range, stack_offset};
use op_values::width_by;
use pcode_model::ranges::number_of;
use pcode_model::{Atom, Listing, ParamStorage, SpaceKind, Varnode};
use std::alloc::Global;

fn range_of(listing: &Listing, atom: Atom) -> Varnode
    requires { HasFrameRanges listing.now }
    ensures { result ≡ range_for listing.now atom }
{
    let spaces = listing.spaces.as_slice();
    match atom.storage {
        ParamStorage::Register(offset) => Varnode {
            space: number_of(SpaceKind::Register, spaces) as u8,
            offset,
            size: atom.size,
        },
        ParamStorage::Unique(offset) => Varnode {
            space: number_of(SpaceKind::Unique, spaces) as u8,
            offset,
            size: atom.size,
        },
        ParamStorage::Stack(offset) => {
            frame_range(listing, stack_offset(listing, offset), atom.size)
        }
    }
}

/// The range of each atom.
pub(crate) fn ranges(
    alloc: Global,
    listing: &Listing,
    atoms: &[Atom],
) -> Result<Vec<Varnode>, Memory>
    requires { HasFrameRanges listing.now }
    ensures { IfOk result (λ v. v.items ≡ ranges_of listing.now atoms.now) }
{
    let mut ranges = vec![in alloc]?;
    for atom in atoms {
        ranges.push(range_of(listing, *atom))?;
    }
    Ok(ranges)
}

/// The variable of each atom.
pub(crate) fn variables(alloc: Global, atoms: &[Atom]) -> Result<Variables, Memory>
    ensures { IfOk result (λ vs. vs ≡ map variable_for atoms.now) }
{
    let mut variables = Variables::new(alloc);
    for atom in atoms {
        variables.push(Variable {
            width: width_by(atom.size),
            storage: Some(atom.storage),
        })?;
    }
    Ok(variables)
}
