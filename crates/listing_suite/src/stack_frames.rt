// The frames of listings.
ghost use Rattle.std.specs.Prelude.{◌≤◌, ◌^◌, length};

use crate::texts::{file, show_refusal};
use flow::follow;
use frames::frame;
use pcode_model::ranges::number_of;
use pcode_model::{
    Frame, FrameAccess, FrameVariable, Listing, OffsetFact, Place, SpaceKind, Tables, check_ops,
};
use pcodetext::read_listing;
use refusals::Refusal;
use std::alloc::Global;
use std::io;

// A listing and its frame.
#[derive(Drop)]
struct Framed {
    listing: Listing,
    frame: Frame,
}

/// The frame of a file's listing, or why it is refused.
pub fn of_file(rt: &HostRuntime, name: &str) -> io::Result<()> {
    let text = file(rt, name)?;
    match frame_of(rt.alloc(), text.as_slice()) {
        Ok(framed) => show_frame(rt, &framed),
        Err(refusal) => show_refusal(rt, &refusal),
    }
}

fn frame_of(alloc: Global, text: &[u8]) -> Result<Framed, Refusal>
    requires { length text.now ≤ 2 ^ 20 }
{
    let listing = read_listing(alloc, text)?;
    check_ops(&listing)?;
    let tables = Tables::new(alloc);
    let flow = match follow(alloc, &listing, &tables) {
        Ok(flow) => flow,
        Err(fault) => return Err(Refusal::from(fault)),
    };
    let frame = frame(alloc, &listing, &flow)?;
    Ok(Framed { listing, frame })
}

fn show_frame(rt: &HostRuntime, framed: &Framed) -> io::Result<()> {
    show_facts(rt, framed)?;
    show_escapes(rt, framed.frame.escapes.as_slice())?;
    show_variables(rt, framed.frame.variables.as_slice())?;
    show_accesses(rt, framed.frame.accesses.as_slice())
}

fn show_facts(rt: &HostRuntime, framed: &Framed) -> io::Result<()> {
    for fact in framed.frame.facts.as_slice() {
        show_fact(rt, &framed.listing, fact)?;
    }
    Ok(())
}

fn show_escapes(rt: &HostRuntime, escapes: &[i64]) -> io::Result<()> {
    for escape in escapes {
        println!(rt; "escape {escape}")?;
    }
    Ok(())
}

fn show_variables(rt: &HostRuntime, variables: &[FrameVariable]) -> io::Result<()> {
    for variable in variables {
        println!(rt; "variable {} {}", variable.offset, variable.size)?;
    }
    Ok(())
}

fn show_accesses(rt: &HostRuntime, accesses: &[FrameAccess]) -> io::Result<()> {
    for access in accesses {
        show_place(rt, "access", access.place)?;
        println!(rt; " {} {} {}", access.argument, access.offset, access.size)?;
    }
    Ok(())
}

fn show_place(rt: &HostRuntime, what: &str, place: Place) -> io::Result<()> {
    print!(rt; "{what} 0x{:x}.{}", place.address, place.index)
}

// Where a block begins, the range, and the offset that it holds.
fn show_fact(rt: &HostRuntime, listing: &Listing, fact: &OffsetFact) -> io::Result<()> {
    let registers = number_of(SpaceKind::Register, listing.spaces.as_slice());
    let space = if usize::from(fact.range.space) == registers {
        "register"
    } else {
        "unique"
    };
    show_place(rt, "fact", fact.place)?;
    println!(rt; " {space} 0x{:x} {}", fact.range.offset, fact.offset)
}
