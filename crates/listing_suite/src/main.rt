//! Listings, row by row. Each line of standard input is a row: what is asked, and the file of a listing. Below the row
//! stands the answer, and the file `stdout` has those that are wanted. A line that begins with # is a heading.
//!
//! `c FILE`: what the command writes, and its status. `canonical FILE OTHER`: whether the canonical text of the one is
//! the other. `cuts FILE`: the fault of the text up to each line feed but the last one. `blocks FILE`: the blocks, or
//! the fault of the flow. `atoms FILE`: the atoms. `frame FILE`: the offsets that are known where blocks begin, those that
//! escape, and the variables and accesses of the frame. `chain N`: how many blocks N branches have.
#![tactic(auto)]

mod atoms;
mod blocks;
mod stack_frames;
mod texts;

use std::io;

fn main(rt: HostRuntime) -> io::Result<()> {
    for line in rt.lines(rt.alloc()) {
        row(&rt, line?.as_str())?;
    }
    Ok(())
}

fn row(rt: &HostRuntime, line: &str) -> io::Result<()> {
    if line.starts_with("#") {
        return println!(rt; "{line}");
    }
    println!(rt; "> {line}")?;
    let mut words = line.split(' ');
    let what = words.next().unwrap_or("");
    let name = words.next().unwrap_or("");
    match what {
        "c" => texts::command(rt, name),
        "canonical" => texts::canonical(rt, name, words.next().unwrap_or("")),
        "cuts" => texts::cuts(rt, name),
        "blocks" => blocks::of_file(rt, name),
        "chain" => blocks::of_chain(rt, name.parse::<u32>().unwrap_or(0)),
        "atoms" => atoms::of_file(rt, name),
        "frame" => stack_frames::of_file(rt, name),
        _ => println!(rt; "no such row"),
    }
}
