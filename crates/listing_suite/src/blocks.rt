// The blocks of listings.
ghost use Rattle.std.specs.Prelude.{◌≤◌, ◌^◌, length};

use crate::texts::{file, show_refusal};
use flow::follow;
use pcode_model::{Block, Exit, Flow, Tables};
use pcodetext::read_listing;
use refusals::Refusal;
use std::alloc::{AllocError, Global};
use std::io;

/// The blocks of a file's listing, or the fault of its flow.
pub fn of_file(rt: &HostRuntime, name: &str) -> io::Result<()> {
    let text = file(rt, name)?;
    match followed(rt.alloc(), text.as_slice()) {
        Ok(flow) => show_blocks(rt, &flow),
        Err(refusal) => show_refusal(rt, &refusal),
    }
}

fn followed(alloc: Global, text: &[u8]) -> Result<Flow, Refusal>
    requires { length text.now ≤ 2 ^ 20 }
{
    let listing = read_listing(alloc, text)?;
    let tables = Tables::new(alloc);
    match follow(alloc, &listing, &tables) {
        Ok(flow) => Ok(flow),
        Err(fault) => Err(Refusal::from(fault)),
    }
}

fn show_blocks(rt: &HostRuntime, flow: &Flow) -> io::Result<()> {
    for block in flow.as_slice() {
        show_block(rt, block)?;
    }
    Ok(())
}

// The first place, how many places, and the exit.
fn show_block(rt: &HostRuntime, block: &Block) -> io::Result<()> {
    let places = block.places.as_slice();
    if let Some(first) = places.first() {
        print!(rt; "0x{:x}.{} {} ", first.address, first.index, places.len())?;
    }
    match &block.exit {
        Exit::Return => println!(rt; "return"),
        Exit::Jump(to) => println!(rt; "jump {to}"),
        Exit::Test { taken, other } => println!(rt; "test {taken} {other}"),
        Exit::Switch { .. } => println!(rt; "switch"),
        Exit::Stop => println!(rt; "stop"),
    }
}

/// How many blocks a listing of so many branches has, each to the next instruction.
pub fn of_chain(rt: &HostRuntime, branches: u32) -> io::Result<()> {
    let text = chain(rt.alloc(), branches)?;
    if text.len() > 0xfffff {
        return println!(rt; "too long");
    }
    match followed(rt.alloc(), text.as_slice()) {
        Ok(flow) => println!(rt; "{} blocks", flow.len()),
        Err(refusal) => show_refusal(rt, &refusal),
    }
}

const FRONT: &[u8] = b"pcode 1
space ram ram 8 le
space register register 4 le
space unique unique 4 le
proto c args result none pop 0x0 keep
func f ram:0x1000 c
";

fn chain(alloc: Global, branches: u32) -> Result<Vec<u8>, AllocError> {
    let mut text = Vec::new(alloc);
    text.extend_from_slice(FRONT)?;
    let mut address = 0x1000u64;
    for _ in 0..branches {
        let next = address.wrapping_add(4);
        let lines = format!(in alloc; "at 0x{address:x} 4\n  BRANCH ram:0x{next:x}:8\n")?;
        text.extend_from_slice(lines.as_bytes())?;
        address = next;
    }
    let lines = format!(in alloc; "at 0x{address:x} 4\n  RETURN register:0x288:8\nend\n")?;
    text.extend_from_slice(lines.as_bytes())?;
    Ok(text)
}
