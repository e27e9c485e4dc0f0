// The line that names a refusal.
ghost use Rattle.std.specs.Prelude.{◌≡◌, IfOk};
ghost use Rattle.pipeline.specs.Message.{line_of};

use bits_core::Memory;
use ctext::digits::put;
use pcode_model::Text;
use refusals::{Refusal, put_words};
use std::alloc::Global;

/// The line with its line feed.
#[tactic(auto, unfolding(crate::specs::Message::line_of))]
pub fn refusal_line(alloc: Global, refusal: &Refusal) -> Result<Text, Memory>
    ensures { IfOk result (λ line. line.items ≡ line_of refusal.now) }
{
    let mut line = Vec::new(alloc);
    put(&mut line, b"pcode2c: ")?;
    put_words(alloc, &mut line, refusal)?;
    put(&mut line, b"\n")?;
    Ok(line)
}
