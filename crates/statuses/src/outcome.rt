//! What a call comes to.

/// What a call comes to, before anything is written.
#[derive(Debug, Drop)]
pub enum Outcome {
    /// The text that is asked for.
    Shown(Vec<u8>),
    /// The line that names why the input is refused.
    Refused(Vec<u8>),
    /// The words aren't taken.
    BadArguments,
    /// The input couldn't be read.
    ReadFault,
    /// The input is too long.
    TooLong,
    /// Memory ran out.
    Memory,
}
