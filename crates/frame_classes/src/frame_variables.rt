// Frame variables and their accesses.
ghost use Rattle.std.specs.Prelude.{◌≡◌, [], None, ◌<ℤ◌, IfOk};
ghost use Rattle.std.specs.List.{AllByRecursion};
ghost use Rattle.pcode_model.specs.Rules.{first_bad};
ghost use Rattle.pcode_model.specs.WellFormed.{IsWellFormed};
ghost use Rattle.frame_facts.specs.Accesses.{IsFrameAccess, IsFrameVariable, IsVariableAccess};
ghost use Rattle.frame_facts.specs.Listed.{IsAccessBefore, IsEscape, IsVariableBefore, Lists};
ghost use Rattle.stackvars.specs.Near.{IsNearAccess};
ghost use Rattle.frame_classes.specs.Runs.{HasBytes};
ghost use Rattle.frame_classes.specs.FrameVariables.{Fits, before, is_below, limit, variable, variables_of};

use crate::runs::{Run, runs};
use bits_core::Memory;
use pcode_model::{FrameAccess, FrameVariable, Listing};
use sqlite_items::Items;
use std::alloc::Global;

/// The frame variables of a listing.
#[derive(Drop)]
pub struct Classes {
    /// Their accesses, by rising place, and at one place by number.
    pub accesses: Items<FrameAccess>,
    /// By rising offset.
    pub variables: Items<FrameVariable>,
}

fn is_below(run: Run, escapes: &[i64]) -> bool
    ensures { result ≡ is_below escapes.now run }
{
    match escapes.first() {
        Some(least) => run.end <= *least,
        None => true,
    }
}

fn variable(run: Run) -> FrameVariable
    requires { Fits run }
    ensures { result ≡ variable run }
{
    FrameVariable {
        offset: run.begin as i32,
        size: (run.end - run.begin) as u32,
    }
}

fn variables_of(alloc: Global, runs: &[Run], escapes: &[i64]) -> Result<Vec<FrameVariable>, Memory>
    requires { AllByRecursion Fits runs.now }
    ensures { IfOk result (λ variables. variables.items ≡ variables_of escapes.now runs.now) }
{
    let mut variables = Vec::new(alloc);
    for run in runs {
        if is_below(*run, escapes) {
            variables.push(variable(*run))?;
        }
    }
    Ok(variables)
}

/// Where the first run begins that is no variable.
fn limit(runs: &[Run], escapes: &[i64]) -> i64
    ensures { result ≡ limit escapes.now runs.now }
{
    for run in runs {
        if !is_below(*run, escapes) {
            return run.begin;
        }
    }
    i64::MAX
}

fn before(alloc: Global, accesses: &[FrameAccess], limit: &i64) -> Result<Vec<FrameAccess>, Memory>
    ensures { IfOk result (λ found. found.items ≡ before limit.now accesses.now) }
{
    let mut found = Vec::new(alloc);
    for access in accesses {
        if i64::from(access.offset) < *limit {
            found.push(*access)?;
        }
    }
    Ok(found)
}

/// The frame variables and their accesses, from all accesses of the frame and from all offsets that escape. `Memory` where
/// memory runs out.
pub fn variables(
    alloc: Global,
    _listing: &Listing,
    accesses: &[FrameAccess],
    escapes: &[i64],
) -> Result<Classes, Memory>
    requires near { AllByRecursion IsNearAccess accesses.now }
    requires some { AllByRecursion HasBytes accesses.now }
    requires accesses { Lists (IsFrameAccess _listing.now [] []) IsAccessBefore accesses.now }
    requires escapes { Lists (IsEscape _listing.now []) ◌<ℤ◌ escapes.now }
    ensures accesses { IfOk result (λ c. Lists (IsVariableAccess _listing.now [] []) IsAccessBefore c.accesses) }
    ensures variables { IfOk result (λ c. Lists (IsFrameVariable _listing.now [] []) IsVariableBefore c.variables) }
{
    let runs = runs(alloc, accesses)?;
    let variables = variables_of(alloc, &runs, escapes)?;
    let limit = limit(&runs, escapes);
    let found = before(alloc, accesses, &limit)?;
    Ok(Classes {
        accesses: Items::from_vec(found),
        variables: Items::from_vec(variables),
    })
}
