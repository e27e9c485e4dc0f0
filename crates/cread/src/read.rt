//! Reading a whole text: what is read is checked, printed and compared.

ghost use Rattle.std.specs.Prelude.{◌≡◌, IfOk};
ghost use Rattle.cmeaning.specs.declared.tree.CFunction.{CFunction as Function};
ghost use Rattle.cmeaning.specs.Valid.{IsValid};
ghost use Rattle.ctext.specs.Text.{text_of};
ghost use Rattle.cread.specs.Answer.{IsAnswered};
ghost use Rattle.exact_c.specs.Tree.{IsTreeOf};

use crate::functions::function;
use crate::item::CFault;
use cmeaning::CFunction;
use exact_c::stands_for;
use std::alloc::Global;

/// The one valid tree with this text, or NotC exactly where there is none.
pub fn read_c(alloc: Global, bytes: &[u8]) -> Result<CFunction, CFault>
    // What is read is a valid tree, and has this text.
    ensures found { IfOk result (IsTreeOf bytes.now) }
    // A valid tree that has this text is read, unless memory runs out.
    ensures only { (f : Function) → IsTreeOf bytes.now f → IsAnswered f result }
{
    let f = function(alloc, bytes)?;
    let stands = stands_for(alloc, &f, bytes)?;
    if !stands {
        return Err(CFault::NotC);
    }
    Ok(f)
}

/// Text determines the tree.
pub fn one_tree()
    ensures { (f g : Function) → IsValid f → IsValid g → text_of f ≡ text_of g → f ≡ g }
{}
