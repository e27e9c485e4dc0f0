//! What is wrong with a text.

/// What is wrong with a line.
#[derive(Clone, Copy, Debug, PartialEq, Eq)]
pub enum Why {
    /// The first line is `pcode N` with a number other than 1 and 2.
    Version,
    /// It has none of the forms.
    Syntax,
    /// It stands before or after its place.
    Order,
    /// An operation, a space or a prototype isn't known.
    Unknown,
    /// A name, an address or a byte stands already.
    Duplicate,
    /// A limit is passed.
    Range,
}

/// What is wrong with a line, or want of memory.
pub type LineFault = line_reader::LineFault<Why>;

/// The first fault of the least faulty line, with the number of that line, from 1 on.
#[derive(Clone, Copy, Debug, PartialEq, Eq)]
pub enum TextFault {
    Syntax(u32),
    Version(u32),
    Duplicate(u32),
    Unknown(u32),
    Range(u32),
    Order(u32),
    /// Memory ran out.
    Memory,
}
