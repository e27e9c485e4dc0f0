//! What written ranges stand for.

ghost use Rattle.std.specs.Prelude.{◌≡◌};
ghost use Rattle.std.specs.Option.{option_map};
ghost use Rattle.pcodetext.specs.Convert.{number, reduced, varnode};

use crate::written::{Named, Written};
use pcode_model::Varnode;

impl Named {
    /// The number of the space, where it is known; else 0.
    pub fn number(self) -> u8
        ensures { result ≡ number self }
    {
        match self {
            Named::Space(number) => number,
            Named::Stack | Named::Unknown => 0,
        }
    }
}

// An offset, or a constant reduced to its size.
fn reduced(space: u8, offset: u64, size: u32) -> u64
    ensures { result ≡ reduced space offset size }
{
    if space != 0 {
        return offset;
    }
    if size >= 8 {
        return offset;
    }
    offset % (1u64 << (8 * size))
}

impl Written {
    pub fn varnode(self) -> Varnode
        ensures { result ≡ varnode self }
    {
        let space = self.space.number();
        Varnode {
            space,
            offset: reduced(space, self.offset, self.size),
            size: self.size,
        }
    }
}

pub fn optional(range: Option<Written>) -> Option<Varnode>
    ensures { result ≡ option_map varnode range }
{
    match range {
        Some(range) => Some(range.varnode()),
        None => None,
    }
}
