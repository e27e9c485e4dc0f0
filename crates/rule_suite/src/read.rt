// The expression that words mean.
use crate::{leaves, nodes};
use bits_core::Width;
use cmeaning::Expr;
use std::alloc::{AllocError, Global};

/// What a row's words leave on the stack. None where a word is none, or an operand is wanting.
pub fn expression(alloc: Global, words: &str) -> Result<Option<Expr>, AllocError> {
    let mut stack = Vec::new(alloc);
    for word in words.split(' ') {
        match step(alloc, &mut stack, word)? {
            Some(e) => stack.push(e)?,
            None => return Ok(None),
        }
    }
    Ok(stack.pop())
}

// The expression of a word over the operands that it takes from the stack.
fn step(alloc: Global, stack: &mut Vec<Expr>, word: &str) -> Result<Option<Expr>, AllocError> {
    let mut parts = word.split(':');
    let head = parts.next().unwrap_or("");
    let first = number(parts.next());
    let second = number(parts.next());
    if let Some(node) = nodes::pair(head) {
        let (Some(b), Some(a)) = (stack.pop(), stack.pop()) else {
            return Ok(None);
        };
        return Ok(Some(nodes::over_two(alloc, node, a, b)?));
    }
    let (dropped, bytes) = if second == 0 {
        (0, first)
    } else {
        (first, second)
    };
    let width = Width::new(bytes).unwrap_or(Width::BYTE);
    if let Some(node) = nodes::single(head, dropped, width) {
        let Some(a) = stack.pop() else {
            return Ok(None);
        };
        return Ok(Some(nodes::over_one(alloc, node, a)?));
    }
    Ok(leaves::leaf(head, width))
}

fn number(part: Option<&str>) -> u8 {
    part.unwrap_or("").parse::<u8>().unwrap_or(0)
}
