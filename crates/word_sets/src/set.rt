ghost use Rattle.std.specs.Prelude.{◌≡◌, ℕ, ◌+◌, ◌-◌, ◌<◌, ◌≤◌, ◌⊎◌, ◌++◌, ◌∷◌, [], Bool, not, length, slice_index, OnOk, IfOk, MatchBool};
ghost use Rattle.std.specs.List.Sorted.{IsNonDecreasing};
ghost use Rattle.word_sets.specs.Turns.{joined, noted, in_arc, IsNext};

use bits_core::Memory;
use std::alloc::Global;

/// A set of words of up to 16 bytes.
#[derive(Drop)]
pub struct WordSet {
    /// Whether the set has the words below all turning points.
    pub first: bool,
    /// From each of these on it is the other way round. Two equal ones cancel.
    pub turns: Vec<u128>,
    ghost rising: { IsNonDecreasing turns.items },
}

/// How two tests are joined: BOOL_AND, BOOL_OR and BOOL_XOR.
#[derive(Clone, Copy, Debug, PartialEq, Eq)]
pub enum Connective {
    And,
    Or,
    Xor,
}

impl Connective {
    fn of(self, a: bool, b: bool) -> bool
        ensures { result ≡ joined self a b }
    {
        match self {
            Connective::And => a & b,
            Connective::Or => a | b,
            Connective::Xor => a ^ b,
        }
    }
}

impl WordSet {
    ghost use Rattle.word_sets.specs.Sets.{has};

    /// Whether the set has the word.
    pub fn contains(&self, word: u128) -> bool
        ensures { result ≡ has self.now word }
    {
        let turns: &[u128] = &self.turns;
        let mut is_in = self.first;
        for turn in turns {
            if *turn <= word {
                is_in = !is_in;
            }
        }
        is_in
    }

    /// The words that the set doesn't have.
    pub fn complement(self) -> WordSet
        ensures { (v : ℕ) → has result v ≡ not (has self v) }
    {
        WordSet {
            first: !self.first,
            turns: self.turns,
        }
    }

    /// The words from `from` on up to but without `to`, around the end; none where the two are one.
    pub(crate) fn arc(alloc: Global, from: u128, to: u128) -> Result<WordSet, Memory>
        ensures { IfOk result (λ s. (v : ℕ) → has s v ≡ in_arc from to v) }
    {
        let is_around = to < from;
        let mut turns = Vec::new(alloc);
        turns.push(from.min(to))?;
        turns.push(from.max(to))?;
        Ok(WordSet {
            first: is_around,
            turns,
        })
    }

    /// The words that are in both sets, in one of them at least, or in just one. It has at most the turning points of
    /// both.
    pub fn join(&self, alloc: Global, how: Connective, other: &WordSet) -> Result<WordSet, Memory>
        ensures { IfOk result (λ s. (v : ℕ) → has s v
            ≡ joined how (has self.now v) (has other.now v)) }
    {
        let left: &[u128] = &self.turns;
        let right: &[u128] = &other.turns;
        let mut out = Vec::new(alloc);
        let mut i = 0;
        let mut j = 0;
        let mut p = self.first;
        let mut q = other.first;
        let mut mark = 0;
        'points: while i < left.len() || j < right.len() {
            let before = how.of(p, q);
            if is_left_next(left, i, right, j) {
                mark = left[i];
                i += 1;
                p = !p;
            } else {
                mark = right[j];
                j += 1;
                q = !q;
            }
            let after = how.of(p, q);
            note(&mut out, before, after, mark)?;
        }
        Ok(WordSet {
            first: how.of(self.first, other.first),
            turns: out,
        })
    }
}

// Notes a turning point where what holds changes.
fn note(out: &mut Vec<u128>, before: bool, after: bool, at: u128) -> Result<(), Memory>
    ensures { OnOk result (out.new.items ≡ noted out.old.items before after at) }
{
    if before != after {
        out.push(at)?;
    }
    Ok(())
}

// Whether the left list has the next point.
fn is_left_next(a: &[u128], i: usize, b: &[u128], j: usize) -> bool
    requires { (i < length a.now) ⊎ (j < length b.now) }
    ensures { MatchBool result (IsNext a.now i b.now j) (IsNext b.now j a.now i) }
{
    if j >= b.len() {
        return true;
    }
    if i >= a.len() {
        return false;
    }
    a[i] <= b[j]
}
