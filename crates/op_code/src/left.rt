//! The variables that take what a call left in registers.

ghost use Rattle.std.specs.Prelude.{◌≡◌, ◌<◌, ◌^◌, length, IfOk};
ghost use Rattle.pcode_model.specs.Spaces.{register_space};
ghost use Rattle.pcode_model.specs.Step.{no_proto as none};
ghost use Rattle.op_code.specs.Left.{is_left as is_left_by, leftovers as leftovers_of, meets_some as meets_some_of, spared as spared_by};
ghost use Rattle.op_code.specs.LeftTable.{IsLeft, left_at};

use bits_core::Memory;
use pcode_model::ranges::{meets, number_of};
use pcode_model::{Listing, Name, Proto, SpaceKind, Storages, Varnode, Varnodes};
use sqlite_items::Items;
use std::alloc::Global;

/// A variable, and the offset in the register space from which it takes what a call left there.
#[derive(Clone, Copy)]
pub struct Leftover {
    pub variable: u32,
    pub offset: u64,
}

/// What calls leave, by their prototypes.
#[derive(Drop)]
pub struct LeftTable {
    /// Of a call of each prototype, by its number.
    rows: Items<Items<Leftover>>,
    /// Of a call by a number that no prototype has.
    other: Items<Leftover>,
}

/// The ranges in which a call of a prototype leaves nothing.
fn spared(alloc: Global, listing: &Listing, proto: &Proto) -> Result<Vec<Varnode>, Memory>
    ensures { IfOk result (λ v. v.items ≡ spared_by listing.now proto.now) }
{
    let mut spared = Vec::from_slice(alloc, proto.keep.as_slice())?;
    if let Some(result) = proto.gives {
        spared.push(result)?;
    }
    if let Some(stack) = listing.stack {
        spared.push(stack)?;
    }
    Ok(spared)
}

fn meets_some(ranges: &[Varnode], v: Varnode) -> bool
    ensures { result ≡ meets_some_of ranges.now v }
{
    for w in ranges {
        if meets(v.offset, v.size, w.offset, w.size) {
            return true;
        }
    }
    false
}

/// The variables of these ranges that take what a call of a prototype left, in their order.
fn leftovers(
    alloc: Global,
    listing: &Listing,
    proto: &Proto,
    ranges: &[Varnode],
) -> Result<Items<Leftover>, Memory>
    requires few { length ranges.now < 2 ^ 32 }
    ensures { IfOk result (λ left. left ≡ leftovers_of listing.now proto.now ranges.now) }
{
    let registers = number_of(SpaceKind::Register, listing.spaces.as_slice());
    let spared = spared(alloc, listing, proto)?;
    let mut left = Items::new(alloc);
    for at in 0..ranges.len() {
        let range = ranges[at];
        if usize::from(range.space) == registers && !meets_some(&spared, range) {
            left.push(Leftover {
                variable: at as u32,
                offset: range.offset,
            })?;
        }
    }
    Ok(left)
}

fn no_proto(alloc: Global) -> Proto
    ensures { result ≡ none }
{
    Proto {
        name: Name::new(alloc),
        args: Storages::new(alloc),
        gives: None,
        pop: 0,
        keep: Varnodes::new(alloc),
    }
}

impl LeftTable {
    /// For variables of these ranges.
    pub fn new(alloc: Global, listing: &Listing, ranges: &[Varnode]) -> Result<LeftTable, Memory>
        requires few { length ranges.now < 2 ^ 32 }
        ensures { IfOk result (IsLeft listing.now ranges.now) }
    {
        let mut rows = Items::new(alloc);
        for proto in listing.protos.as_slice() {
            rows.push(leftovers(alloc, listing, proto, ranges)?)?;
        }
        let other = leftovers(alloc, listing, &no_proto(alloc), ranges)?;
        Ok(LeftTable { rows, other })
    }

    /// What a call of the prototype of a number leaves.
    pub(crate) fn of(&self, proto: u32) -> &[Leftover]
        ensures { result.now ≡ left_at self.now proto }
    {
        match self.rows.get(proto as usize) {
            Some(row) => row.as_slice(),
            None => self.other.as_slice(),
        }
    }
}
