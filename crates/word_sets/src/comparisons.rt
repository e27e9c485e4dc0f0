ghost use Rattle.std.specs.Prelude.{◌≡◌};

use bits_core::Word;

/// A comparison that a guard may have. The word in capitals is p-code's.
#[derive(Clone, Copy, Debug, PartialEq, Eq)]
pub enum Order {
    /// INT_EQUAL.
    Equal,
    /// INT_NOTEQUAL.
    NotEqual,
    /// INT_LESS.
    Less,
    /// INT_LESSEQUAL.
    LessEqual,
    /// INT_SLESS.
    SignedLess,
    /// INT_SLESSEQUAL.
    SignedLessEqual,
}

/// A comparison of a word, moved by a constant, with a constant.
#[derive(Clone, Copy, Debug, PartialEq, Eq)]
pub struct Comparison {
    pub order: Order,
    /// Whether the moved word is the first input, and the constant the second.
    pub word_first: bool,
    /// What is added to the word.
    pub moved: Word,
    /// Of the same width, which is the width of the words.
    pub constant: Word,
    pub ghost same: { moved.width.bytes ≡ constant.width.bytes },
}
