//! The inputs of an op.

ghost use Rattle.std.specs.Prelude.{◌≡◌, [], ◌∷◌, ◌++◌, length, OnOk, OnErr};

use crate::listing::Varnode;
use smallvec::SmallVec;
use std::alloc::{AllocError, Global};
use std::marker::Model;

/// The varnodes that an op names as its inputs, in the listing's order. Most ops have at most three.
#[derive(Drop)]
pub struct Inputs {
    varnodes: SmallVec<Varnode, 3>,
}

impl Model for Inputs {
    ghost use Rattle.std.specs.Prelude.{List};
    ghost use Rattle.pcode_model.specs.declared.listing.Varnode.{Varnode};

    ghost Value = { List Varnode };

    ghost view = { λ i. i.varnodes.items };
}

impl Inputs {
    pub fn new(alloc: Global) -> Inputs
        ensures { result ≡ [] }
    {
        Inputs {
            varnodes: SmallVec::new(alloc),
        }
    }

    /// The same list with `varnode` at its end; unchanged where memory runs out.
    pub fn push(&mut self, varnode: Varnode) -> Result<(), AllocError>
        ensures ok { OnOk result (self.new ≡ self.old ++ varnode ∷ []) }
        ensures err { OnErr result (self.new ≡ self.old) }
    {
        self.varnodes.push(varnode)?;
        Ok(())
    }

    pub fn len(&self) -> usize
        ensures { result ≡ length self.now }
    {
        self.varnodes.len()
    }

    pub fn as_slice(&self) -> &[Varnode]
        ensures { result.now ≡ self.now }
    {
        self.varnodes.as_slice()
    }
}
