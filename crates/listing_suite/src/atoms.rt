// The atoms of listings.
use crate::texts::{file, show_refusal};
use pcode_model::{Atom, Atoms, ParamStorage};
use pipeline::accept;
use std::io;

/// The atoms of a file's listing, or why it is refused.
pub fn of_file(rt: &HostRuntime, name: &str) -> io::Result<()> {
    let text = file(rt, name)?;
    match accept(rt.alloc(), text.as_slice()) {
        Ok(accepted) => show_atoms(rt, &accepted.atoms),
        Err(refusal) => show_refusal(rt, &refusal),
    }
}

fn show_atoms(rt: &HostRuntime, atoms: &Atoms) -> io::Result<()> {
    for atom in atoms.as_slice() {
        show_atom(rt, *atom)?;
    }
    Ok(())
}

fn show_atom(rt: &HostRuntime, atom: Atom) -> io::Result<()> {
    let size = atom.size;
    match atom.storage {
        ParamStorage::Register(offset) => println!(rt; "register 0x{offset:x} {size}"),
        ParamStorage::Unique(offset) => println!(rt; "unique 0x{offset:x} {size}"),
        ParamStorage::Stack(offset) => println!(rt; "stack {offset} {size}"),
    }
}
