// Accesses of the frame in runs without a gap.
ghost use Rattle.std.specs.Prelude.{◌≡◌, ◌+◌, ◌<◌, int_lt, ◌∷◌, IfOk};
ghost use Rattle.std.specs.List.{AllByRecursion};
ghost use Rattle.frame_classes.specs.Runs.{AreRuns, HasBytes, IsSorted, end, joined, place, run_of, swept};
ghost use Rattle.stackvars.specs.Near.{IsNearAccess};

use bits_core::Memory;
use pcode_model::FrameAccess;
use std::alloc::Global;

/// The bytes from an offset on, up to another one.
#[derive(Clone, Copy, Debug, PartialEq, Eq)]
pub(crate) struct Run {
    pub begin: i64,
    pub end: i64,
}

// Where an access begins, as a number that isn't negative.
fn place(access: &FrameAccess) -> u64
    ensures { result ≡ place access.now.offset }
{
    (i64::from(access.offset) + (1 << 31)) as u64
}

fn run_of(access: FrameAccess) -> Run
    ensures { result ≡ run_of access }
{
    let begin = i64::from(access.offset);
    Run {
        begin,
        end: begin + i64::from(access.size),
    }
}

fn meets(last: Run, next: Run) -> bool
    ensures { result ≡ int_lt next.begin last.end }
{
    next.begin < last.end
}

fn joined(last: Run, next: Run) -> Run
    ensures { result ≡ joined last next }
{
    Run {
        begin: last.begin,
        end: last.end.max(next.end),
    }
}

fn sweep(alloc: Global, first: Run, accesses: &[FrameAccess]) -> Result<Vec<Run>, Memory>
    ensures { IfOk result (λ runs. runs.items ≡ swept first accesses.now) }
{
    let mut runs = Vec::new(alloc);
    let mut last = first;
    for access in accesses {
        let next = run_of(*access);
        if meets(last, next) {
            last = joined(last, next);
        } else {
            runs.push(last)?;
            last = next;
        }
    }
    runs.push(last)?;
    Ok(runs)
}

fn sorted_runs(alloc: Global, accesses: &[FrameAccess]) -> Result<Vec<Run>, Memory>
    requires sorted { IsSorted accesses.now }
    requires near { AllByRecursion IsNearAccess accesses.now }
    requires some { AllByRecursion HasBytes accesses.now }
    ensures { IfOk result (λ runs. AreRuns accesses.now runs.items) }
{
    match accesses.split_first() {
        Some((first, rest)) => sweep(alloc, run_of(*first), rest),
        None => Ok(Vec::new(alloc)),
    }
}

/// The runs of accesses.
pub(crate) fn runs(alloc: Global, accesses: &[FrameAccess]) -> Result<Vec<Run>, Memory>
    requires near { AllByRecursion IsNearAccess accesses.now }
    requires some { AllByRecursion HasBytes accesses.now }
    ensures { IfOk result (λ runs. AreRuns accesses.now runs.items) }
{
    let mut sorted = Vec::from_slice(alloc, accesses)?;
    sorted.sort_by_key(|access| place(access))?;
    sorted_runs(alloc, &sorted)
}
