//! C texts, row by row. Each line of standard input is a row, and below it stands `again` where the text is that of a
//! valid tree and is printed again byte for byte, and `not C` where no valid tree has it. The file `stdout` has what is
//! wanted. A line that begins with # is a heading.
//!
//! `again FILE`: the text of a file. `minus N`, `loops N`, `params N LAST`, `cases N LAST`, `calls N LAST`: a text that
//! is made.
#![tactic(auto)]

mod made;

use cread::{CFault, read_c};
use ctext::print_c;
use std::alloc::Global;
use std::{fs, io};

fn main(rt: HostRuntime) -> io::Result<()> {
    for line in rt.lines(rt.alloc()) {
        row(&rt, line?.as_str())?;
    }
    Ok(())
}

fn row(rt: &HostRuntime, line: &str) -> io::Result<()> {
    if line.starts_with("#") {
        return println!(rt; "{line}");
    }
    println!(rt; "> {line}")?;
    let mut words = line.split(' ');
    let what = words.next().unwrap_or("");
    let first = words.next().unwrap_or("");
    let last = number(words.next().unwrap_or(""));
    let text = match what {
        "again" => fs::read(rt, first)?,
        "minus" => made::minus(rt.alloc(), number(first))?,
        "loops" => made::loops(rt.alloc(), number(first))?,
        "params" => made::params(rt.alloc(), number(first), last)?,
        "cases" => made::cases(rt.alloc(), number(first), last)?,
        _ => made::calls(rt.alloc(), number(first), last)?,
    };
    println!(rt; "{}", answer(rt.alloc(), text.as_slice()))
}

fn number(word: &str) -> u32 {
    word.parse::<u32>().unwrap_or(0)
}

fn answer(alloc: Global, text: &[u8]) -> &'static str {
    match read_c(alloc, text) {
        Ok(f) => match print_c(alloc, &f) {
            Ok(back) if back.as_slice() == text => "again",
            Ok(_) => "another text",
            Err(_) => "no memory",
        },
        Err(CFault::NotC) => "not C",
        Err(CFault::Memory) => "no memory",
    }
}
