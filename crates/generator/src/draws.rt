//! The sequence of draws, and what is drawn for an instruction.

ghost use Rattle.std.specs.Prelude.{◌≡◌, ◌<◌, ◌^◌};
ghost use Rattle.generator.specs.Draws.{drawn, next, shape_of, top};

/// How many instructions are drawn.
pub const DRAWN: u32 = 2000;

/// What a drawn instruction does.
#[derive(Clone, Copy, Debug, PartialEq, Eq)]
pub enum Shape {
    /// Copies the word to the first register.
    Constant,
    /// Adds the second register to the first one.
    Sum,
    /// The exclusive-or of both, to the first register.
    Xor,
    /// The product of both, to the first register.
    Product,
    /// Branches where the first register is less than the second one.
    Branch,
    /// Stores the second register at the address in the first one.
    Store,
    /// Loads the first register from the address in the second one.
    Load,
    /// Copies the second byte of the second register to the first byte of the first one.
    Byte,
}

/// What is drawn for an instruction: its shape, the numbers of two registers, and a word.
#[derive(Clone, Copy, Debug, PartialEq, Eq)]
pub struct Drawn {
    pub shape: Shape,
    pub first: u32,
    pub second: u32,
    pub word: u32,
}

/// The state after a state.
#[tactic(auto, using(std::proofs::lemmas::Grind::common_steps, crate::proofs::Wrapping::wrapped))]
pub(crate) fn next(state: u64) -> u64
    ensures { result ≡ next state }
{
    state
        .wrapping_mul(6_364_136_223_846_793_005)
        .wrapping_add(1_442_695_040_888_963_407)
}

// The 31 bits of a state that are drawn.
fn top(state: u64) -> u32
    ensures { result ≡ top state }
{
    (state >> 33) as u32
}

fn shape_of(number: u32) -> Shape
    ensures { result ≡ shape_of number }
{
    match number {
        0 => Shape::Constant,
        1 => Shape::Sum,
        2 => Shape::Xor,
        3 => Shape::Product,
        4 => Shape::Branch,
        5 => Shape::Store,
        6 => Shape::Load,
        _ => Shape::Byte,
    }
}

/// What two states draw.
pub(crate) fn draw(first: u64, second: u64) -> Drawn
    ensures { result ≡ drawn (top first) (top second) }
{
    let number = top(first);
    Drawn {
        shape: shape_of(number / 64 % 8),
        first: number % 8,
        second: number / 8 % 8,
        word: top(second),
    }
}
