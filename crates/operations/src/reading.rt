//! The operation of a word.

ghost use Rattle.std.specs.Prelude.{◌≡◌, IfOk};
ghost use Rattle.std.specs.Option.{option_copied};
ghost use Rattle.operations.specs.Operations.{IsCodeOf, float_of, named_by, opcode_of};

use crate::operation::{OPERATIONS, Operation};
use pcode_model::Opcode;
use sqlite_items::Items;
use std::alloc::{AllocError, Global};

/// The operation of a word, or None where the word isn't known. It is the one operation that has the word.
pub fn opcode(alloc: Global, word: &[u8]) -> Result<Option<Opcode>, AllocError>
    ensures found { IfOk result (λ code. code ≡ opcode_of word.now) }
    ensures only { IfOk result (IsCodeOf word.now) }
{
    first_of(alloc, word)
}

// The first operation that has the word.
fn first_of(alloc: Global, word: &[u8]) -> Result<Option<Opcode>, AllocError>
    ensures { IfOk result (λ code. code ≡ opcode_of word.now) }
{
    if let Some(more) = float(word) {
        return Ok(Some(Opcode::Float(Items::from_slice(alloc, more)?)));
    }
    match named(word, &OPERATIONS) {
        Some(operation) => Ok(Some(operation.opcode())),
        None => Ok(None),
    }
}

// What follows `FLOAT_`.
fn float(word: &[u8]) -> Option<&[u8]>
    ensures { option_copied result ≡ float_of word.now }
{
    match word {
        [b'F', b'L', b'O', b'A', b'T', b'_', more @ ..] => Some(more),
        _ => None,
    }
}

// The first of some operations whose word it is.
fn named(word: &[u8], operations: &[Operation]) -> Option<Operation>
    ensures { result ≡ named_by word.now operations.now }
{
    for operation in operations {
        if word == operation.word() {
            return Some(*operation);
        }
    }
    None
}
