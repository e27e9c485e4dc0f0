//! Whether a tree of C is valid and has a text to the letter.
//!
//! A reader of C may then be lax: what it takes a text for is checked, printed and compared with the text.
#![tactic(auto)]

ghost use Rattle.std.specs.Prelude.{◌≡◌, ◌↔◌, IsTrue, IfOk};
ghost use Rattle.ctext.specs.Text.{text_of};
ghost use Rattle.exact_c.specs.Tree.{IsTreeOf};

use bits_core::Memory;
use cmeaning::{CFunction, checked};
use ctext::print_c;
use std::alloc::Global;

/// Whether the tree has this text.
fn has_text(alloc: Global, f: &CFunction, bytes: &[u8]) -> Result<bool, Memory>
    ensures { IfOk result (λ yes. IsTrue yes ↔ (bytes.now ≡ text_of f.now)) }
{
    let text = print_c(alloc, f)?;
    Ok(bytes == text.as_slice())
}

/// Whether the tree is valid and has this text.
pub fn stands_for(alloc: Global, f: &CFunction, bytes: &[u8]) -> Result<bool, Memory>
    ensures { IfOk result (λ yes. IsTrue yes ↔ IsTreeOf bytes.now f.now) }
{
    let right = checked(alloc, f)?;
    if !right {
        return Ok(false);
    }
    let same = has_text(alloc, f, bytes)?;
    Ok(same)
}
