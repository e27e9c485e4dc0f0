//! The run.

ghost use Rattle.std.specs.Prelude.{◌≡◌, ◌≤◌, length, IfOk};
ghost use Rattle.std.specs.List.{AllByRecursion};
ghost use Rattle.machine.specs.Machine.{seen};
ghost use Rattle.pcode_model.specs.WellFormed.{IsWellFormed};
ghost use Rattle.cmeaning.specs.Do.{widths_in};
ghost use Rattle.cmeaning.specs.Flat.{flat_of};
ghost use Rattle.cmeaning.specs.Step.{c_machine, seen_c};
ghost use Rattle.cmeaning.specs.Valid.{IsValid};
ghost use Rattle.flatcode.specs.Steps.{code_of};
ghost use Rattle.run_world.specs.Meaning.{entry_of, trace_of};
ghost use Rattle.cmeaning.specs.Fits.{Fits};
ghost use Rattle.c_run.specs.May.{MayStep, StepFits};
ghost use Rattle.c_run.specs.States.{IsContext, state_of};

use crate::context::CContext;
use crate::local::Local;
use crate::start::start;
use crate::step::carry_out;
use bits_core::Memory;
use cmeaning::CFunction;
use flatcode::{FlatCode, flat};
use pcode_model::Listing;
use run_world::{Entry, Log, Setting, Shape, Trace};
use std::alloc::Global;

/// What the run has shown after n steps from a state on.
fn run_from(context: &CContext, code: &FlatCode, local: Local, n: u32) -> Result<Trace, Memory>
    requires context { IsContext context.now }
    requires code { code_of code.now ≡ flat_of local.variables.f.now }
    requires right { AllByRecursion (MayStep (widths_in local.variables.f.now)) (flat_of local.variables.f.now) }
    requires fits { AllByRecursion (StepFits context.now.listing.now (widths_in local.variables.f.now))
        (flat_of local.variables.f.now) }
    ensures { IfOk result (λ t. trace_of t
        ≡ seen (c_machine context.now.listing.now local.entry.variables.f.now)
        (state_of context.now.answers.now local.entry 0) n) }
{
    let mut local = local;
    let mut position = 0;
    for _ in 0..n {
        if local.log.end.is_some() {
            break;
        }
        position = carry_out(context, code, &mut local, position)?;
    }
    let Local { log, .. } = local;
    let Log { events, end, .. } = log;
    Ok(Trace { events, end })
}

/// What the run of the function on an entry has shown after n steps of its flat code.
pub fn run_c(
    alloc: Global,
    listing: &Listing,
    f: &CFunction,
    entry: &Entry,
    n: u32,
) -> Result<Trace, Memory>
    requires formed { IsWellFormed listing.now }
    requires few { length listing.now.spaces ≤ 256 }
    requires valid { IsValid f.now }
    requires fits { Fits listing.now f.now }
    ensures { IfOk result (λ t. trace_of t ≡ seen_c listing.now f.now (entry_of listing.now entry.now) n) }
{
    let code = flat(alloc, f)?;
    let setting = Setting::new(alloc, listing)?;
    let context = CContext {
        alloc,
        listing,
        answers: entry.answers.as_slice(),
        ram: Shape::new(listing, setting.first_ram),
        registers: Shape::new(listing, setting.registers),
        uniques: Shape::new(listing, setting.uniques),
        setting,
    };
    let local = start(&context, f, entry)?;
    run_from(&context, &code, local, n)
}
