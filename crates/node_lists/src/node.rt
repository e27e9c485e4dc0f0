//! The nodes of lists.
use heap_nodes::Link;

/// A node in a list, with the links to its neighbours and to the list's head.
/// A spare node has no head.
#[derive(Clone, Copy)]
pub struct Node<T> {
    pub prev: Option<Link>,
    pub next: Option<Link>,
    pub list: Option<Link>,
    pub held: T,
}

/// Where a list begins and ends, and how many nodes it has.
#[derive(Clone, Copy)]
pub struct Head {
    pub first: Option<Link>,
    pub last: Option<Link>,
    pub len: u32,
}
