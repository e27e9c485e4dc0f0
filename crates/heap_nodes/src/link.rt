//! A link to a node of an arena.
ghost use Rattle.std.specs.Prelude.{◌≡◌, ⊤};

use crate::place::NodePtr;
use std::alloc::AllocError;

/// Where a node lies, and its number.
pub struct Link {
    pub(crate) place: NodePtr,
    pub number: u32,
}

impl Clone for Link {
    ghost is_clone = { λ x y. y ≡ x };

    ghost is_infallible = { λ _. ⊤ };

    fn clone(&self) -> Result<Link, AllocError> {
        Ok(*self)
    }
}

impl Copy for Link {}
