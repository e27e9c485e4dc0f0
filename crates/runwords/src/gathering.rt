//! The words and the files together.

ghost use Rattle.std.specs.Prelude.{◌≡◌, ◌≤◌, map, string_bytes, None, IfErr, IfOk};
ghost use Rattle.runwords.specs.Fetched.{AllFetched, AreShort};
ghost use Rattle.runwords.specs.Request.{asked_by};
ghost use Rattle.runwords.specs.Table.{IsGathered};
ghost use Rattle.statuses.specs.Answer.{answer_of};
ghost use Rattle.statuses.specs.Cause.{Ends};

use crate::files::{Inputs, fetch};
use crate::plan::read_words;
use outside::{ReadEnd, Shelf, Words};
use statuses::Outcome;
use std::alloc::Global;

/// The bytes of the three files, and how many steps each machine makes.
#[derive(Debug, Drop)]
pub struct Gathered {
    pub inputs: Inputs,
    /// From 0 to 100,000.
    pub steps: u32,
}

/// What the words ask for, read from the shelf. Where that is nothing, or can't be read, what the call comes to.
pub fn gather<H: Shelf>(alloc: Global, words: &Words, shelf: &mut H) -> Result<Gathered, Outcome>
    ensures inputs { IfOk result (λ g. IsGathered (asked_by (map string_bytes words.now)) (λ a came. AllFetched a (H.told shelf.old) (H.told shelf.new) came) g) }
    ensures short { IfOk result (λ g. AreShort g.inputs) }
    ensures ends { IfErr result (λ outcome. Ends (asked_by (map string_bytes words.now)) (λ a came. AllFetched a (H.told shelf.old) (H.told shelf.new) came) (answer_of outcome)) }
    ensures stays { asked_by (map string_bytes words.now) ≡ None → shelf.new ≡ shelf.old }
    ensures files { (H.told shelf.new).files ≡ (H.told shelf.old).files }
    ensures later { (H.told shelf.old).faults ≤ (H.told shelf.new).faults }
{
    let Some(plan) = read_words(words.as_slice()) else {
        return Err(Outcome::BadArguments);
    };
    match fetch(alloc, shelf, &plan) {
        Ok(inputs) => Ok(Gathered {
            inputs,
            steps: plan.steps,
        }),
        Err(ReadEnd::Fault) => Err(Outcome::ReadFault),
        Err(ReadEnd::TooLong) => Err(Outcome::TooLong),
        Err(ReadEnd::Memory) => Err(Outcome::Memory),
    }
}
