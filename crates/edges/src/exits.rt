//! Exits made anew, and visits of the variables that they read.

ghost use Rattle.std.specs.Prelude.{◌≡◌, OnOk, IfOk};
ghost use Rattle.blockcode.specs.declared.code.Exit.TheVariants as X;
ghost use Rattle.parts.specs.Visits.{visited, all_variables};
ghost use Rattle.edges.specs.Exits.{exit_args, exit_with as exit_by};

use bits_core::Memory;
use blockcode::{Arm, Exit};
use cmeaning::Expr;
use parts::exprs::with_all;
use parts::visits::visit_expr;
use parts::{Own, Places, Visitor};
use sqlite_items::Items;
use std::alloc::Global;

fn test_with<P: Places>(
    alloc: Global,
    places: &P,
    condition: &Expr,
    taken: u32,
    other: u32,
) -> Result<Exit, Memory>
    ensures { IfOk result (λ x. x ≡ exit_by (P.place places.now) (X.Test condition.now taken other)) }
{
    let condition = with_all(alloc, places, condition)?;
    Ok(Exit::Test {
        condition,
        taken,
        other,
    })
}

fn switch_with<P: Places>(
    alloc: Global,
    places: &P,
    value: &Expr,
    arms: &[Arm],
) -> Result<Exit, Memory>
    ensures { IfOk result (λ x. x ≡ exit_by (P.place places.now) (X.Switch value.now arms.now)) }
{
    let value = with_all(alloc, places, value)?;
    let arms = Items::from_slice(alloc, arms)?;
    Ok(Exit::Switch { value, arms })
}

/// The exit with what stands in the place of each variable that it reads.
pub fn exit_with<P: Places>(alloc: Global, places: &P, x: &Exit) -> Result<Exit, Memory>
    ensures { IfOk result (λ y. y ≡ exit_by (P.place places.now) x.now) }
{
    match x {
        Exit::Return(None) => Ok(Exit::Return(None)),
        Exit::Return(Some(e)) => Ok(Exit::Return(Some(with_all(alloc, places, e)?))),
        Exit::Jump(to) => Ok(Exit::Jump(*to)),
        Exit::Test {
            condition,
            taken,
            other,
        } => test_with(alloc, places, condition, *taken, *other),
        Exit::Switch { value, arms } => switch_with(alloc, places, value, arms.as_slice()),
        Exit::Stop => Ok(Exit::Stop),
    }
}

/// The same exit.
#[tactic(auto, using(crate::proofs::Steps::exit_itself))]
pub fn copy_exit(alloc: Global, x: &Exit) -> Result<Exit, Memory>
    ensures { IfOk result (λ y. y ≡ x.now) }
{
    exit_with(alloc, &Own, x)
}

/// Visits each read of an exit.
pub fn visit_exit<V: Visitor>(visitor: &mut V, x: &Exit) -> Result<(), Memory>
    ensures { OnOk result (visitor.new ≡ visited V.after visitor.old (all_variables (exit_args x.now))) }
{
    match x {
        Exit::Return(Some(e)) => visit_expr(visitor, e),
        Exit::Test { condition, .. } => visit_expr(visitor, condition),
        Exit::Switch { value, .. } => visit_expr(visitor, value),
        Exit::Return(None) | Exit::Jump(_) | Exit::Stop => Ok(()),
    }
}
