// The atoms of a listing with its frame.
ghost use Rattle.std.specs.Prelude.{◌≡◌, ◌+◌, ◌++◌, ◌<◌, ◌≤◌, ◌^◌, [], length, None, IfErr, IfOk, OnOk, ◌∷◌, ◌-◌};
ghost use Rattle.std.specs.List.{AllByRecursion};
ghost use Rattle.pcode_model.specs.Rules.{first_bad};
ghost use Rattle.pcode_model.specs.WellFormed.{IsWellFormed};
ghost use Rattle.pcode_model.specs.Flow.{IsFlow};
ghost use Rattle.pcode_model.specs.Atoms.{AreAtoms, argument_range, argument_ranges, kept_ranges, registers_at};
ghost use Rattle.pcode_model.specs.Limits.{max_atoms};
ghost use Rattle.pcode_model.specs.Step.{proto_of};
ghost use Rattle.stackvars.specs.Cuts.{Fits, IsCause, atom, atoms_of, begin, cut_marks, entry_word, frames, from_entry, mark, marks, more_cuts, open_marks, opens, storage_at, uniques};
ghost use Rattle.stackvars.specs.Near.{HasNearAccesses};

use crate::collected::collected;
use crate::fault::{AtomFault, too_many};
use crate::sweep::{Mark, Piece, pieces};
use bits_core::Memory;
use instructions::arguments;
use pcode_model::{
    Atom, Atoms, Flow, Frame, Listing, MAX_ATOMS, ParamStorage, Proto, Storage, Varnode,
};
use sqlite_items::Items;
use std::alloc::Global;

/// Where the unique space begins on the line: past every end of a register range.
const UNIQUES: u128 = 1 << 65;

/// Where the frame begins on the line: past every end of a unique range.
const FRAMES: u128 = 1 << 66;

/// Where the stack pointer's entry word stands: so far inside the frame that every offset lies there.
const ENTRY_WORD: u128 = FRAMES + (1 << 32);

// Where an offset of the frame stands.
fn from_entry(offset: i32) -> u128
    ensures { result ≡ from_entry offset }
{
    if offset < 0 {
        ENTRY_WORD - u128::from(offset.unsigned_abs())
    } else {
        ENTRY_WORD + offset as u128
    }
}

/// Where a storage stands on the line that has the register space, then the unique space, then the frame.
fn begin(storage: ParamStorage) -> u128
    ensures value { result ≡ begin storage }
    ensures bound { result ≤ 2 ^ 67 }
{
    match storage {
        ParamStorage::Register(offset) => u128::from(offset),
        ParamStorage::Unique(offset) => UNIQUES + u128::from(offset),
        ParamStorage::Stack(offset) => from_entry(offset),
    }
}

fn push_open(marks: &mut Vec<Mark>, access: &Atom) -> Result<(), Memory>
    ensures { OnOk result (marks.new.items ≡ marks.old.items ++ open_marks access.now) }
{
    let position = begin(access.storage);
    let end = position + u128::from(access.size);
    marks.push(Mark {
        position,
        reach: end,
    })?;
    marks.push(Mark {
        position: end,
        reach: 0,
    })?;
    Ok(())
}

fn push_opens(marks: &mut Vec<Mark>, accessed: &[Atom]) -> Result<(), Memory>
    ensures { OnOk result (marks.new.items ≡ marks.old.items ++ opens accessed.now) }
{
    for access in accessed {
        push_open(marks, access)?;
    }
    Ok(())
}

// Both ends of so many bytes from a place of the line on.
fn push_cut(marks: &mut Vec<Mark>, position: u128, size: u32) -> Result<(), Memory>
    requires { position ≤ 2 ^ 67 }
    ensures { OnOk result (marks.new.items ≡ marks.old.items ++ mark position 0 ∷ mark (position + size) 0 ∷ []) }
{
    let end = position + u128::from(size);
    marks.push(Mark { position, reach: 0 })?;
    marks.push(Mark {
        position: end,
        reach: 0,
    })?;
    Ok(())
}

fn push_argument(marks: &mut Vec<Mark>, argument: &Storage) -> Result<(), Memory>
    ensures { OnOk result (marks.new.items ≡ marks.old.items ++ cut_marks (argument_range argument.now)) }
{
    match argument {
        Storage::At(range) => push_cut(marks, u128::from(range.offset), range.size),
        Storage::Stack { offset, size } => push_cut(marks, ENTRY_WORD + u128::from(*offset), *size),
    }
}

fn push_arguments(marks: &mut Vec<Mark>, arguments: &[Storage]) -> Result<(), Memory>
    ensures { OnOk result (marks.new.items ≡ marks.old.items ++ more_cuts (argument_ranges arguments.now)) }
{
    for argument in arguments {
        push_argument(marks, argument)?;
    }
    Ok(())
}

fn push_registers(marks: &mut Vec<Mark>, ranges: &[Varnode]) -> Result<(), Memory>
    ensures { OnOk result (marks.new.items ≡ marks.old.items ++ more_cuts (registers_at ranges.now)) }
{
    for range in ranges {
        push_cut(marks, u128::from(range.offset), range.size)?;
    }
    Ok(())
}

#[tactic(auto, using(crate::proofs::Marked::cuts_of_both))]
fn push_kept(marks: &mut Vec<Mark>, protos: &[Proto]) -> Result<(), Memory>
    ensures { OnOk result (marks.new.items ≡ marks.old.items ++ more_cuts (kept_ranges protos.now)) }
{
    for proto in protos {
        push_registers(marks, proto.keep.as_slice())?;
    }
    Ok(())
}

fn marks(alloc: Global, listing: &Listing, accessed: &[Atom]) -> Result<Vec<Mark>, Memory>
    ensures { IfOk result (λ found. found.items ≡ marks listing.now accessed.now) }
{
    let mut marks = Vec::new(alloc);
    push_opens(&mut marks, accessed)?;
    push_arguments(&mut marks, arguments(listing, listing.func.proto))?;
    push_kept(&mut marks, listing.protos.as_slice())?;
    Ok(marks)
}

fn storage_at(place: u128) -> ParamStorage
    requires register { place < uniques → place < 2 ^ 64 }
    requires unique { place < frames → place < uniques + 2 ^ 64 }
    requires frame { frames ≤ place → (entry_word - 2 ^ 31 ≤ place) × (place < entry_word + 2 ^ 31) }
    ensures { result ≡ storage_at place }
{
    if place < UNIQUES {
        ParamStorage::Register(place as u64)
    } else if place < FRAMES {
        ParamStorage::Unique((place - UNIQUES) as u64)
    } else {
        ParamStorage::Stack((place as i128 - ENTRY_WORD as i128) as i32)
    }
}

fn atom(piece: Piece) -> Atom
    requires { Fits piece }
    ensures { result ≡ atom piece }
{
    Atom {
        storage: storage_at(piece.begin),
        size: (piece.end - piece.begin) as u32,
    }
}

fn atoms_of(alloc: Global, pieces: &[Piece]) -> Result<Vec<Atom>, Memory>
    requires { AllByRecursion Fits pieces.now }
    ensures { IfOk result (λ atoms. atoms.items ≡ atoms_of pieces.now) }
{
    let mut atoms = Vec::new(alloc);
    for piece in pieces {
        atoms.push(atom(*piece))?;
    }
    Ok(atoms)
}

fn all_atoms(
    alloc: Global,
    listing: &Listing,
    flow: &Flow,
    frame: &Frame,
) -> Result<Vec<Atom>, Memory>
    requires flow { IsFlow listing.now [] flow.now }
    requires read { IsWellFormed listing.now }
    requires ops { first_bad listing.now ≡ None }
    requires near { HasNearAccesses frame.now }
    ensures { IfOk result (λ atoms. AreAtoms listing.now [] frame.now atoms.items) }
{
    let accessed = collected(alloc, listing, flow.as_slice(), frame)?;
    let marks = marks(alloc, listing, &accessed)?;
    let pieces = pieces(alloc, marks)?;
    atoms_of(alloc, &pieces)
}

/// The atoms of a listing with a frame whose accesses lie near the stack pointer's entry word. The fault `TooManyAtoms`
/// comes where they are more than `MAX_ATOMS`, with their number, and `Memory` where memory runs out.
pub fn atoms(
    alloc: Global,
    listing: &Listing,
    flow: &Flow,
    frame: &Frame,
) -> Result<Atoms, AtomFault>
    requires flow { IsFlow listing.now [] flow.now }
    requires read { IsWellFormed listing.now }
    requires ops { first_bad listing.now ≡ None }
    requires near { HasNearAccesses frame.now }
    ensures atoms { IfOk result (λ atoms. AreAtoms listing.now [] frame.now atoms) }
    ensures few { IfOk result (λ atoms. length atoms ≤ max_atoms) }
    ensures err { IfErr result (λ fault. IsCause listing.now frame.now fault) }
{
    let atoms = all_atoms(alloc, listing, flow, frame)?;
    if atoms.len() > MAX_ATOMS {
        return Err(too_many(atoms.len()));
    }
    Ok(Items::from_vec(atoms))
}
