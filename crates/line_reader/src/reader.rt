//! Reading a text, line by line.

ghost use Rattle.std.specs.Prelude.{◌≡◌, ◌≤◌, ◌-◌, ◌^◌, length, IfErr, IfOk};
ghost use Rattle.listing_lines.specs.Text.{Line};
ghost use Rattle.line_reader.specs.Answer.{Does, IsStopOf};
ghost use Rattle.line_reader.specs.Reading.{Step, progress};
ghost use Rattle.line_reader.specs.Reading.Progress.{Going};

use crate::fault::{LineFault, Stop};
use listing_lines::split_line;

/// What reads lines one after another, by a state of what they said so far.
pub trait LineReader {
    type State;

    type Why;

    /// Whether lines can be read.
    ghost can_read: { Self → Type 0 };

    /// What a line does to the state before it.
    ghost step_of: { Self → Self.State → Line → Step Self.State Self.Why };

    /// One line more. After an Err the state is of no more use.
    fn step(&self, state: &mut Self::State, line: &[u8]) -> Result<(), LineFault<Self::Why>>
        requires { can_read self.now }
        ensures { Does (step_of self.now state.old line.now) state.new result };
}

/// Reads the lines of a text up to the first faulty one: gives one more than the number of lines where there is none.
pub fn read_lines<R: LineReader>(
    reader: &R,
    state: &mut R::State,
    bytes: &[u8],
) -> Result<u32, Stop<R::Why>>
    requires can { R.can_read reader.now }
    requires short { length bytes.now ≤ 2 ^ 32 - 2 }
    ensures whole { IfOk result (λ number. progress (R.step_of reader.now) state.old bytes.now ≡ Going number state.new) }
    ensures stopped { IfErr result (IsStopOf (progress (R.step_of reader.now) state.old bytes.now)) }
{
    let mut line_number = 1u32;
    let mut rest = bytes;
    while !rest.is_empty() {
        let (line, after) = split_line(rest);
        match reader.step(state, line) {
            Ok(()) => {}
            Err(fault) => {
                return Err(Stop {
                    line: line_number,
                    fault,
                });
            }
        }
        rest = after;
        line_number += 1;
    }
    Ok(line_number)
}
