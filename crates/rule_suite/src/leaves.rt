// Variables and constants. A variable's number tells its letter and its width.

ghost use Rattle.std.specs.Prelude.{◌≤◌, IfSome};

use bits_core::{Width, Word};
use cmeaning::Expr;
use std::alloc::{AllocError, Global};

/// The widths of the variables x, y and z: 16 of each.
pub fn widths(alloc: Global) -> Result<Vec<Width>, AllocError> {
    let mut widths = Vec::new(alloc);
    for _ in 0..3 {
        for bytes in 1..17 {
            if let Some(width) = Width::new(bytes) {
                widths.push(width)?;
            }
        }
    }
    Ok(widths)
}

// The number of the first variable of this letter.
fn first_of(head: &str) -> Option<u32>
    ensures { IfSome result (λ n. n ≤ 32) }
{
    match head {
        "x" => Some(0),
        "y" => Some(16),
        "z" => Some(32),
        _ => None,
    }
}

/// The variable or the constant of this letter or number, and of this width.
pub fn leaf(head: &str, width: Width) -> Option<Expr> {
    if let Some(first) = first_of(head) {
        return Some(Expr::Var(first + u32::from(width.bytes) - 1));
    }
    match head.parse::<u128>() {
        Ok(value) => Some(Expr::Const(Word::new(value, width))),
        Err(_) => None,
    }
}

/// The letter and the width of a variable.
pub fn letter(v: u32) -> (&'static str, u32) {
    let head = match v / 16 {
        0 => "x",
        1 => "y",
        _ => "z",
    };
    (head, v % 16 + 1)
}
