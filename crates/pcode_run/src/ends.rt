//! The ends of a run, and where it goes.

ghost use Rattle.std.specs.Prelude.{◌≡◌};
ghost use Rattle.pcode_model.specs.Step.{gone, in_world};
ghost use Rattle.pcode_model.specs.World.{ended};
ghost use Rattle.pcode_memory.specs.declared.context.PcodeContext.{PcodeContext};
ghost use Rattle.run_world.specs.Meaning.{end_of};
ghost use Rattle.pcode_operands.specs.State.{places_of, state_of};

use pcode_operands::state::{State, WidePlace};
use run_world::End;

/// Ends the run.
pub fn finish(state: &mut State, end: End)
    ensures { (c : PcodeContext)
        → state_of c state.new ≡ in_world (ended (end_of end) (state_of c state.old).world) (state_of c state.old) }
{
    state.log.end = Some(end);
}

/// Goes to a place, or ends the run where there is none.
pub fn go(state: &mut State, to: Option<WidePlace>)
    ensures { (c : PcodeContext) → state_of c state.new ≡ gone (places_of to) (state_of c state.old) }
{
    match to {
        Some(spot) => state.at = spot,
        None => finish(state, End::BadTarget),
    }
}
