//! What is wrong with the text of an entry.

/// What is wrong with a line.
#[derive(Clone, Copy, Debug, PartialEq, Eq)]
pub enum Why {
    /// It has none of the forms.
    Syntax,
    /// It stands before or after its place.
    Order,
    /// It names no ram space, its bytes leave their space, or it gives a read-only byte.
    Range,
}

/// What is wrong with a line, or want of memory.
pub type LineFault = line_reader::LineFault<Why>;

/// The first fault of the least faulty line, with the number of that line, from 1 on.
#[derive(Clone, Copy, Debug, PartialEq, Eq)]
pub enum EntryFault {
    /// The line has none of the forms. With the number of lines plus 1: the text has no `end`.
    Syntax(u32),
    /// The first line isn't `entry 1`, a later line is, a line of the state stands after an `ans` line, a line of an
    /// answer stands before any, or a line stands after `end`.
    Order(u32),
    /// The line names no ram space, its bytes leave their space, or it gives a read-only byte of the state.
    Range(u32),
    /// Memory ran out.
    Memory,
}
