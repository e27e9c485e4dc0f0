//! Rewrite rules and negations, row by row. Each line of standard input is a row: what is asked, and an expression. The
//! answer stands below it, and the file `stdout` has those that are wanted. A line that begins with # is a heading.
//!
//! `find EXPRESSION`: the row of the table whose rule matches first at the root, and its right side, or `nothing`.
//! `negate EXPRESSION`: the negation of a condition.
//!
//! An expression's words stand behind those of its operands, so that a stack reads it: `x:4 5:4 Add` is the sum of the
//! variable x and the constant 5, both of four bytes. Constants are decimal. An extension has its width, as in `Zext:8`,
//! and a part the bytes that it drops, then its width, as in `Part:2:1`.
#![tactic(auto)]

mod leaves;
mod nodes;
mod print;
mod read;

use bits_core::Width;
use cmeaning::Expr;
use negation::negated;
use rule_find::find;
use rule_views::{Tree, View};
use std::io;

fn main(rt: HostRuntime) -> io::Result<()> {
    let widths = leaves::widths(rt.alloc())?;
    for line in rt.lines(rt.alloc()) {
        row(&rt, widths.as_slice(), line?.as_str())?;
    }
    Ok(())
}

fn row(rt: &HostRuntime, widths: &[Width], line: &str) -> io::Result<()> {
    if line.starts_with("#") {
        return println!(rt; "{line}");
    }
    println!(rt; "> {line}")?;
    let (what, words) = line.split_once(' ').unwrap_or((line, ""));
    match (what, read::expression(rt.alloc(), words)?) {
        ("find", Some(e)) => found(rt, Tree { at: &e, widths }),
        ("negate", Some(e)) => negation(rt, e, widths),
        _ => println!(rt; "no such row"),
    }
}

fn found(rt: &HostRuntime, at: Tree) -> io::Result<()> {
    match find(at) {
        Some(f) => {
            let text = print::made(rt.alloc(), f.made)?;
            println!(rt; "{:?}{text}", f.row)
        }
        None => println!(rt; "nothing"),
    }
}

fn negation(rt: &HostRuntime, condition: Expr, widths: &[Width]) -> io::Result<()> {
    let width = Tree {
        at: &condition,
        widths,
    }
    .width();
    match negated(rt.alloc(), condition, width) {
        Ok(e) => {
            let text = print::expression(rt.alloc(), &e)?;
            println!(rt; "negated{text}")
        }
        Err(_) => println!(rt; "no memory"),
    }
}
