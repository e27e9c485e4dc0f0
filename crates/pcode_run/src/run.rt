//! The run.

ghost use Rattle.std.specs.Prelude.{◌≡◌, None, IfOk};
ghost use Rattle.machine.specs.Machine.{seen};
ghost use Rattle.pcode_model.specs.Frame.{frame_of};
ghost use Rattle.pcode_model.specs.Memory.{whole};
ghost use Rattle.pcode_model.specs.Rules.{first_bad};
ghost use Rattle.pcode_model.specs.Step.{first_whole, layout, machine, seen_p, stack_word, start};
ghost use Rattle.pcode_model.specs.WellFormed.{IsWellFormed};
ghost use Rattle.run_world.specs.Maps.{bytes_of};
ghost use Rattle.run_world.specs.Meaning.{entry_of, trace_of};
ghost use Rattle.pcode_memory.specs.declared.context.PcodeContext.{PcodeContext};
ghost use Rattle.pcode_memory.specs.Context.{IsContext, frame_in, layout_of, whole_of};
ghost use Rattle.pcode_memory.specs.Frame.{IsOrdered};
ghost use Rattle.pcode_operands.specs.State.{state_of};
ghost use Rattle.pcode_run.specs.Run.{LiesInRam, OwnsFirstRam};

use crate::step::step;
use bits_core::Memory;
use pcode_memory::{PcodeContext, Whole};
use pcode_model::{Frame, Listing};
use pcode_operands::operands::local_word;
use pcode_operands::state::{State, WidePlace};
use run_world::{ByteMap, Entry, Events, Log, OffsetMap, Setting, Shape, Trace};
use std::alloc::Global;

// What the memory begins with.
fn first_memory(alloc: Global, listing: &Listing, entry: &Entry) -> Result<Whole, Memory>
    requires { IsWellFormed listing.now }
    ensures { IfOk result (λ memory. whole_of memory ≡ first_whole (entry_of listing.now entry.now)) }
{
    let bytes = ByteMap::first(alloc, listing, entry.state.as_slice())?;
    let hidden = OffsetMap::of_bytes(alloc, entry.hidden.as_slice())?;
    Ok(Whole {
        bytes,
        hidden,
        spoiled: OffsetMap::new(alloc),
    })
}

// The state that the run of a listing begins with.
fn start(alloc: Global, listing: &Listing, entry: &Entry) -> Result<State, Memory>
    requires { IsWellFormed listing.now }
    ensures local { IfOk result (λ state. bytes_of state.local ≡ (entry_of listing.now entry.now).bytes) }
    ensures state { IfOk result (λ state.
        (c : PcodeContext)
        → c.answers.now ≡ entry.now.answers
        → state_of c state
        ≡ start listing.now (entry_of listing.now entry.now) (first_whole (entry_of listing.now entry.now))) }
{
    let local = ByteMap::first(alloc, listing, entry.state.as_slice())?;
    let memory = first_memory(alloc, listing, entry)?;
    Ok(State {
        at: WidePlace {
            address: u128::from(listing.func.address),
            index: 0,
        },
        local,
        memory,
        log: Log {
            taken: 0,
            events: Events::new(alloc),
            end: None,
        },
    })
}

// The stack pointer's word.
fn stack_word(context: &PcodeContext, local: &ByteMap) -> Result<u64, Memory>
    requires { IsContext context.now }
    ensures { IfOk result (λ n. n ≡ stack_word context.now.listing.now context.now.listing.now.stack (bytes_of local.now)) }
{
    match context.listing.stack {
        Some(sp) => {
            let word = local_word(context, local, sp)?;
            Ok(word.value as u64)
        }
        None => Ok(0),
    }
}

// What stays the same during the run from a state on.
fn context<'a>(
    alloc: Global,
    listing: &'a Listing,
    frame: &'a Frame,
    entry: &'a Entry,
    local: &ByteMap,
) -> Result<PcodeContext<'a>, Memory>
    requires formed { IsWellFormed listing.now }
    requires checked { first_bad listing.now ≡ None }
    requires ordered { IsOrdered listing.now frame.now }
    requires local { bytes_of local.now ≡ (entry_of listing.now entry.now).bytes }
    ensures context { IfOk result IsContext }
    ensures listing { IfOk result (λ c. c.listing.now ≡ listing.now) }
    ensures frame { IfOk result (λ c. c.frame.now ≡ frame.now) }
    ensures answers { IfOk result (λ c. c.answers.now ≡ entry.now.answers) }
    ensures layout { IfOk result
        (λ c. layout_of c ≡ layout listing.now (frame_of listing.now frame.now) (entry_of listing.now entry.now)) }
{
    let setting = Setting::new(alloc, listing)?;
    let ram = Shape::new(listing, setting.first_ram);
    let mut context = PcodeContext {
        alloc,
        listing,
        frame,
        answers: entry.answers.as_slice(),
        setting,
        ram,
        stack0: 0,
    };
    context.stack0 = stack_word(&context, local)?;
    Ok(context)
}

// What the run has shown after n steps from a state on.
fn run_from(context: &PcodeContext, state: State, n: u32) -> Result<Trace, Memory>
    requires context { IsContext context.now }
    requires owns { OwnsFirstRam context.now.listing.now (frame_in context.now) }
    ensures { IfOk result (λ t. trace_of t
        ≡ seen (machine (whole (layout_of context.now)) context.now.listing.now (frame_in context.now))
        (state_of context.now state) n) }
{
    let mut state = state;
    for _ in 0..n {
        if state.log.end.is_some() {
            break;
        }
        step(context, &mut state)?;
    }
    let State { log, .. } = state;
    let Log { events, end, .. } = log;
    Ok(Trace { events, end })
}

/// What the run of a listing's p-code has shown after n steps, with the variables of a frame that stands in order and whose
/// accesses lie in the first ram space.
pub fn run_p(
    alloc: Global,
    listing: &Listing,
    frame: &Frame,
    entry: &Entry,
    n: u32,
) -> Result<Trace, Memory>
    requires formed { IsWellFormed listing.now }
    requires checked { first_bad listing.now ≡ None }
    requires ordered { IsOrdered listing.now frame.now }
    requires owns { LiesInRam listing.now frame.now }
    ensures { IfOk result
        (λ t. trace_of t ≡ seen_p listing.now (frame_of listing.now frame.now) (entry_of listing.now entry.now) n) }
{
    let state = start(alloc, listing, entry)?;
    let context = context(alloc, listing, frame, entry, &state.local)?;
    run_from(&context, state, n)
}
