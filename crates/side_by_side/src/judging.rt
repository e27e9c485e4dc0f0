//! The runs of both machines, and what is told of them.

ghost use Rattle.std.specs.Prelude.{◌≡◌, ◌++◌, [], IfOk, None, OnOk};
ghost use Rattle.cmeaning.specs.Valid.{IsValid};
ghost use Rattle.cmeaning.specs.Fits.{Fits};
ghost use Rattle.pcode_model.specs.Flow.{IsFlow, NoFault};
ghost use Rattle.pcode_model.specs.Rules.{first_bad};
ghost use Rattle.pcode_model.specs.WellFormed.{IsWellFormed};
ghost use Rattle.entrytext.specs.Lies.{LiesIn};
ghost use Rattle.statuses.specs.Answer.{answer_of};
ghost use Rattle.run_world.specs.Meaning.{trace_of};
ghost use Rattle.runwords.specs.Fetched.{AreShort};
ghost use Rattle.runwords.specs.Table.{IsJudged};
ghost use Rattle.side_by_side.specs.Judged.{Faults, IsLine, IsShown, IsTold, Shows, both_text};

use crate::input_fault::{InputFault, fault_line};
use crate::reading::{Parsed, parse};
use bits_core::Memory;
use c_run::run_c;
use comparison::{Comparison, compare, put_comparison};
use frames::frame;
use pcode_model::Listing;
use pcode_run::run_p;
use run_world::Trace;
use runwords::Inputs;
use statuses::Outcome;
use std::alloc::Global;
use tracetext::put_trace;

// Puts the lines of both traces and of how they compare behind a text.
fn put_both(
    out: &mut Vec<u8>,
    listing: &Listing,
    p: &Trace,
    c: &Trace,
    comparison: Comparison,
) -> Result<(), Memory>
    ensures { OnOk result (out.new.items ≡ out.old.items ++ both_text listing.now (trace_of p.now) (trace_of c.now) comparison) }
{
    put_trace(out, listing, b"p ", p)?;
    put_trace(out, listing, b"c ", c)?;
    put_comparison(out, comparison)
}

// The traces of both machines after so many steps, the p-code's by the listing's frame, and how they compare.
fn show(alloc: Global, parsed: &Parsed, steps: u32) -> Result<Vec<u8>, Memory>
    requires formed { IsWellFormed parsed.now.listing }
    requires ops { first_bad parsed.now.listing ≡ None }
    requires flow { IsFlow parsed.now.listing [] parsed.now.flow }
    requires no_fault { NoFault parsed.now.listing [] }
    requires valid { IsValid parsed.now.function }
    requires fits { Fits parsed.now.listing parsed.now.function }
    requires lies { LiesIn parsed.now.listing parsed.now.entry }
    ensures { IfOk result (λ text. IsShown parsed.now.listing parsed.now.function parsed.now.entry steps text.items) }
{
    let frame = frame(alloc, &parsed.listing, &parsed.flow)?;
    let p = run_p(alloc, &parsed.listing, &frame, &parsed.entry, steps)?;
    let c = run_c(
        alloc,
        &parsed.listing,
        &parsed.function,
        &parsed.entry,
        steps,
    )?;
    let comparison = compare(&p, &c);
    let mut text = Vec::new(alloc);
    put_both(&mut text, &parsed.listing, &p, &c, comparison)?;
    Ok(text)
}

fn refused(alloc: Global, input_fault: &InputFault) -> Outcome
    ensures { IsLine input_fault.now (answer_of result) }
{
    if matches!(input_fault, InputFault::Memory) {
        return Outcome::Memory;
    }
    match fault_line(alloc, input_fault) {
        Ok(line) => Outcome::Refused(line),
        Err(_) => Outcome::Memory,
    }
}

fn shown(alloc: Global, parsed: &Parsed, steps: u32) -> Outcome
    requires formed { IsWellFormed parsed.now.listing }
    requires ops { first_bad parsed.now.listing ≡ None }
    requires flow { IsFlow parsed.now.listing [] parsed.now.flow }
    requires no_fault { NoFault parsed.now.listing [] }
    requires valid { IsValid parsed.now.function }
    requires fits { Fits parsed.now.listing parsed.now.function }
    requires lies { LiesIn parsed.now.listing parsed.now.entry }
    ensures { IsTold parsed.now.listing parsed.now.function parsed.now.entry steps (answer_of result) }
{
    match show(alloc, parsed, steps) {
        Ok(text) => Outcome::Shown(text),
        Err(_) => Outcome::Memory,
    }
}

/// What the inputs come to after so many steps of each machine.
pub fn judge(alloc: Global, inputs: &Inputs, steps: u32) -> Outcome
    requires { AreShort inputs.now }
    ensures { IsJudged Shows Faults inputs.now steps (answer_of result) }
{
    match parse(alloc, inputs) {
        Ok(parsed) => shown(alloc, &parsed, steps),
        Err(input_fault) => refused(alloc, &input_fault),
    }
}
