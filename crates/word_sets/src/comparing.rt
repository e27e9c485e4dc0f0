ghost use Rattle.std.specs.Prelude.{◌≡◌, ℕ, ◌+◌, ◌<◌, ◌≤◌, IfOk};
ghost use Rattle.bits_core.specs.Value.{limit, flag, half, sub, add};
ghost use Rattle.word_sets.specs.Sets.{has};
ghost use Rattle.word_sets.specs.Comparing.{comparison_value, in_strict, least_of};

use crate::comparisons::{Comparison, Order};
use crate::set::WordSet;
use bits_core::{Binary, Memory, Width, Word, binary};
use std::alloc::Global;

// The least word in signed order.
fn least_signed(width: Width) -> Word
    ensures value { result.value ≡ half width.bytes }
    ensures width { result.width.bytes ≡ width.bytes }
{
    let greatest = Word::new(u128::MAX, width);
    Word::new(greatest.value / 2 + 1, width)
}

// The least word in an order.
fn least(order: Order, width: Width) -> Word
    ensures value { result.value ≡ least_of order width.bytes }
    ensures width { result.width.bytes ≡ width.bytes }
{
    match order {
        Order::SignedLess => least_signed(width),
        Order::SignedLessEqual => least_signed(width),
        _ => Word::new(0, width),
    }
}

// The word that moved gives `a`.
fn back(a: Word, moved: Word) -> Word
    requires { a.width.bytes ≡ moved.width.bytes }
    ensures value { result.value ≡ sub a.width.bytes a.value moved.value }
    ensures width { result.width.bytes ≡ a.width.bytes }
{
    binary(Binary::Subtract, a, moved, a.width)
}

// The word after it, around the end.
fn next(a: Word) -> Word
    ensures value { result.value ≡ add a.width.bytes a.value 1 }
    ensures width { result.width.bytes ≡ a.width.bytes }
{
    binary(Binary::Add, a, Word::new(1, a.width), a.width)
}

// The words that, moved, are below the constant or above it, by the words that, moved, are the least one, the
// constant and the one after the constant.
fn strict(
    alloc: Global,
    word_first: bool,
    start: u128,
    at: u128,
    after: u128,
) -> Result<WordSet, Memory>
    ensures { IfOk result (λ s. (v : ℕ) → has s v ≡ in_strict word_first start at after v) }
{
    if word_first {
        WordSet::arc(alloc, start, at)
    } else {
        WordSet::arc(alloc, after, start)
    }
}

/// The words of the comparison's width at which it holds.
pub fn comparison_set(alloc: Global, t: Comparison) -> Result<WordSet, Memory>
    ensures { IfOk result (λ s. (v : ℕ) → v < limit t.constant.width.bytes
        → flag (has s v) ≡ comparison_value t v) }
{
    let start = back(least(t.order, t.constant.width), t.moved).value;
    let at = back(t.constant, t.moved);
    let after = next(at).value;
    let at = at.value;
    let first = t.word_first;
    match t.order {
        Order::Equal => WordSet::arc(alloc, at, after),
        Order::NotEqual => Ok(WordSet::arc(alloc, at, after)?.complement()),
        Order::Less => strict(alloc, first, start, at, after),
        Order::LessEqual => Ok(strict(alloc, !first, start, at, after)?.complement()),
        Order::SignedLess => strict(alloc, first, start, at, after),
        Order::SignedLessEqual => Ok(strict(alloc, !first, start, at, after)?.complement()),
    }
}
