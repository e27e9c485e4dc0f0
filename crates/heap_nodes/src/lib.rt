//! Nodes on the heap that reach one another by raw pointers. A row of owners owns them.
//!
//! An owner stands for one node: it was made from a box, keeps the box's pointer, and frees the node when it is
//! dropped. A `Vec` of owners owns all nodes. So what a program may read or write is the ordinary ownership of a
//! `Vec`, and a pointer itself gives no right: it is followed only beside the row of owners, by the owner that has
//! that pointer.
//!
//! Why two nodes are never at one place: the memory of a box belongs to one owner alone, so two owners with one
//! pointer would own the same bytes twice. `apart` draws that conclusion and does nothing else. From it a node is
//! found by its place or by its number, and it is the same node.
//!
//! Only this crate has raw pointers and unsafe code: `new_node`, `node`, `replace`, `apart` and `Owner`. Its
//! contracts speak of lists of values. An `Arena` is such a row with an invariant, and a `Link` is the number of a
//! node with its place, which stays right since nodes are never moved or taken away.
#![tactic(auto)]

ghost use Rattle.std.specs.Prelude.{◌≡◌, Some, None, IsSome, IfOk};
ghost use Rattle.heap_nodes.specs.Owners.{value_at, set_at, places, IsApart, TakesRoom};

use std::alloc::{AllocError, Allocator};

pub mod arena;
pub mod link;
pub mod owner;
pub mod place;

pub use arena::Arena;
pub use link::Link;
pub use owner::Owner;
pub use place::NodePtr;

/// A new node.
pub fn new_node<T: Drop, A: Allocator>(alloc: A, value: T) -> Result<Owner<T, A>, AllocError>
where
    A: Drop,
    ensures { IfOk result (λ o. o.value ≡ value) }
{
    match Box::new(alloc, value) {
        Ok(node) => Ok(Owner::of(node)),
        Err(refused) => Err(refused.into()),
    }
}

/// The node at `at`.
pub fn node<T, A: Allocator>(owners: &[Owner<T, A>], at: NodePtr) -> &T
    requires { IsSome (value_at at.ptr owners.now) }
    ensures { value_at at.ptr owners.now ≡ Some result.now }
{
    unsafe { &*(at.ptr as *mut T) }
}

/// Puts a value at `at`, and returns the one that was there.
pub fn replace<T, A: Allocator>(owners: &mut [Owner<T, A>], at: NodePtr, value: T) -> T
    requires { IsSome (value_at at.ptr owners.old) }
    ensures value { value_at at.ptr owners.old ≡ Some result }
    ensures owners { owners.new ≡ set_at at.ptr value owners.old }
{
    unsafe {
        let place = at.ptr as *mut T;
        let old = place.read();
        place.write(value);
        old
    }
}

/// No two nodes lie at one place.
pub fn apart<T, A: Allocator>(owners: &mut [Owner<T, A>])
    requires { TakesRoom T.row }
    ensures same { owners.new ≡ owners.old }
    ensures apart { IsApart (places owners.old) }
{}
