ghost use Rattle.std.specs.Prelude.{◌≡◌, ◌≢◌, ℕ, ◌+◌, ◌-◌, ◌<◌, ◌≤◌, ◌⊎◌, [], IfOk, MatchOption, length};
ghost use Rattle.bits_core.specs.Value.{limit};
ghost use Rattle.word_sets.specs.Sets.{has};
ghost use Rattle.word_sets.specs.Words.{words_of, IsStep};

use crate::set::WordSet;
use bits_core::{Memory, Width, Word};
use std::alloc::Global;

// What comes next in a walk over the words of a set.
#[derive(Clone, Copy, Debug, PartialEq, Eq)]
enum Step {
    // What holds turns here.
    Turn(u128),
    // The word is in the set.
    Take,
    // No word is left.
    Stop,
}

fn next_step(turns: &[u128], i: usize, is_in: bool, word: u128, top: u128) -> Step
    ensures { IsStep turns.now i is_in word top result }
{
    if word > top {
        return Step::Stop;
    }
    if i < turns.len() {
        let turn = turns[i];
        if !is_in || turn <= word {
            return Step::Turn(turn);
        }
        return Step::Take;
    }
    if is_in { Step::Take } else { Step::Stop }
}

fn found(out: Vec<u128>) -> Option<Vec<u128>>
    ensures { MatchOption result (out.items ≡ []) (λ words. (words.items ≡ out.items) × (0 < length words.items)) }
{
    if out.is_empty() { None } else { Some(out) }
}

/// The set's words of this width, in rising order. None exactly where there is none, or more than `most`. It costs the
/// turning points, and at most `most` words.
pub fn few_words(
    alloc: Global,
    set: &WordSet,
    width: Width,
    most: usize,
) -> Result<Option<Vec<u128>>, Memory>
    ensures { let all = words_of (has set.now) (limit width.bytes) in
        IfOk result (λ few. MatchOption few ((all ≡ []) ⊎ (most < length all))
        (λ words. (words.items ≡ all) × (0 < length all) × (length all ≤ most))) }
{
    let top = Word::new(u128::MAX, width).value;
    let turns: &[u128] = &set.turns;
    let mut out = Vec::new(alloc);
    let mut i = 0;
    let mut is_in = set.first;
    let mut word = 0;
    'words: loop {
        match next_step(turns, i, is_in, word, top) {
            Step::Stop => return Ok(found(out)),
            Step::Turn(turn) => {
                word = word.max(turn);
                is_in = !is_in;
                i += 1;
            }
            Step::Take => {
                if out.len() == most {
                    return Ok(None);
                }
                out.push(word)?;
                if word == top {
                    return Ok(found(out));
                }
                word += 1;
            }
        }
    }
}
