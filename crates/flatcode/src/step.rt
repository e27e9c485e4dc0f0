//! Steps of flat code.

ghost use Rattle.std.specs.Prelude.{◌≡◌};
ghost use Rattle.cmeaning.specs.Flat.{found_in};
ghost use Rattle.std.specs.Prelude.{map};
ghost use Rattle.flatcode.specs.Steps.{case_of, place_in};

use cmeaning::{Expr, Stmt};
use sqlite_items::Items;

/// The position that a value of a switch leads to.
#[derive(Clone, Copy, Debug, PartialEq, Eq)]
pub struct Case {
    pub value: u128,
    pub position: usize,
}

pub type Cases = Items<Case>;

/// A step. Positions count the steps from 0.
#[derive(Drop)]
pub enum Step<'a> {
    /// A simple statement, and on.
    Do(&'a Stmt),
    /// To `yes` where the condition isn't 0, and else to `no`.
    Test {
        condition: &'a Expr,
        yes: usize,
        no: usize,
    },
    Jump(usize),
    /// To the label of that number.
    Goto(u32),
    /// To the position of the case that has the value, and else to `other`.
    Choose {
        value: &'a Expr,
        cases: Cases,
        other: usize,
    },
    /// The end of the function, with a value or none.
    Give(&'a Option<Expr>),
}

/// The flat code of a function.
#[derive(Drop)]
pub struct FlatCode<'a> {
    pub steps: Vec<Step<'a>>,
    /// The position of each label, by its number.
    pub labels: Vec<Option<usize>>,
    /// The position past the last step.
    pub end: usize,
}

fn position_in(labels: &[Option<usize>], end: usize, label: u32) -> usize
    ensures { result ≡ place_in labels.now end label }
{
    match labels.get(label as usize) {
        Some(Some(position)) => *position,
        _ => end,
    }
}

/// Where a value leads in a switch.
pub fn led_to(cases: &[Case], other: usize, value: u128) -> usize
    ensures { result ≡ found_in (map case_of cases.now) other value }
{
    for c in cases {
        if c.value == value {
            return c.position;
        }
    }
    other
}

impl<'a> FlatCode<'a> {
    /// The position of a label.
    pub fn position(&self, label: u32) -> usize
        ensures { result ≡ place_in self.now.labels.items self.now.end label }
    {
        position_in(self.labels.as_slice(), self.end, label)
    }
}
