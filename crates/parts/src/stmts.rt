//! Simple statements made anew, with other names for their targets and something in the place of what they read.

ghost use Rattle.std.specs.Prelude.{◌≡◌, ℕ, true, IfOk};
ghost use Rattle.parts.specs.Tables.{name_in};
ghost use Rattle.cmeaning.specs.declared.tree.Stmt.TheVariants as S;
ghost use Rattle.cmeaning.specs.Kinds.{kind_of, calls};
ghost use Rattle.parts.specs.Exprs.{with_all as all_with, with_each as each_with};
ghost use Rattle.parts.specs.Stmts.{action_of, is_simple, map_target, changed as changed_of, renamed as renamed_by};

use crate::exprs::{with_all, with_each};
use crate::places::{Names, Own, Places};
use bits_core::Memory;
use cmeaning::{Expr, StatementDivision, Stmt};
use pcode_model::Name;
use sqlite_items::Items;
use std::alloc::Global;

fn target_by<P: Places>(places: &P, v: Option<u32>) -> Option<u32>
    ensures { result ≡ map_target (P.name places.now) v }
{
    match v {
        None => None,
        Some(v) => Some(places.target(v)),
    }
}

fn name_again(alloc: Global, name: &Option<Name>) -> Result<Option<Name>, Memory>
    ensures { IfOk result (λ r. r ≡ name.now) }
{
    match name {
        None => Ok(None),
        Some(name) => Ok(Some(Items::from_slice(alloc, name.as_slice())?)),
    }
}

fn load<P: Places>(
    alloc: Global,
    places: &P,
    v: u32,
    space: &Option<Name>,
    address: &Expr,
) -> Result<Stmt, Memory>
    ensures { IfOk result (λ r. r ≡ S.Load (P.name places.now v) space.now (all_with (P.place places.now) address.now)) }
{
    let target = places.target(v);
    let space = name_again(alloc, space)?;
    let address = with_all(alloc, places, address)?;
    Ok(Stmt::Load {
        target,
        space,
        address,
    })
}

fn store<P: Places>(
    alloc: Global,
    places: &P,
    space: &Option<Name>,
    address: &Expr,
    value: &Expr,
) -> Result<Stmt, Memory>
    ensures { IfOk result (λ r. r ≡ S.Store space.now (all_with (P.place places.now) address.now)
        (all_with (P.place places.now) value.now)) }
{
    let space = name_again(alloc, space)?;
    let address = with_all(alloc, places, address)?;
    let value = with_all(alloc, places, value)?;
    Ok(Stmt::Store {
        space,
        address,
        value,
    })
}

fn divide<P: Places>(
    alloc: Global,
    places: &P,
    v: u32,
    op: StatementDivision,
    left: &Expr,
    right: &Expr,
) -> Result<Stmt, Memory>
    ensures { IfOk result (λ r. r ≡ S.Divide (P.name places.now v) op (all_with (P.place places.now) left.now)
        (all_with (P.place places.now) right.now)) }
{
    let target = places.target(v);
    let left = with_all(alloc, places, left)?;
    let right = with_all(alloc, places, right)?;
    Ok(Stmt::Divide {
        target,
        op,
        left,
        right,
    })
}

fn call_ind<P: Places>(
    alloc: Global,
    places: &P,
    v: Option<u32>,
    callee: &Expr,
    args: &[Expr],
) -> Result<Stmt, Memory>
    ensures { IfOk result (λ r. r ≡ S.CallInd (map_target (P.name places.now) v) (all_with (P.place places.now) callee.now)
        (each_with (P.place places.now) args.now)) }
{
    let target = target_by(places, v);
    let callee = with_all(alloc, places, callee)?;
    let args = with_each(alloc, places, args)?;
    Ok(Stmt::CallInd {
        target,
        callee,
        args,
    })
}

/// A call, or a statement that takes what one has left.
#[tactic(auto, unfolding(cmeaning::specs::Kinds::kind_of))]
fn changed_call<P: Places>(alloc: Global, places: &P, s: &Stmt) -> Result<Stmt, Memory>
    requires { calls (kind_of s.now) ≡ true }
    ensures { IfOk result (λ r. r ≡ changed_of (P.name places.now) (P.place places.now) s.now) }
{
    match s {
        Stmt::Call {
            target,
            callee,
            args,
        } => Ok(Stmt::Call {
            target: target_by(places, *target),
            callee: *callee,
            args: with_each(alloc, places, args.as_slice())?,
        }),
        Stmt::CallInd {
            target,
            callee,
            args,
        } => call_ind(alloc, places, *target, callee, args.as_slice()),
        Stmt::Other {
            target,
            index,
            args,
        } => Ok(Stmt::Other {
            target: target_by(places, *target),
            index: *index,
            args: with_each(alloc, places, args.as_slice())?,
        }),
        Stmt::Extra { target, offset } => Ok(Stmt::Extra {
            target: places.target(*target),
            offset: *offset,
        }),
        _ => unreachable!(),
    }
}

/// The simple statement with its target under another name, and what stands in the place of each variable that it reads.
#[tactic(auto, unfolding(cmeaning::specs::Kinds::kind_of))]
pub fn changed<P: Places>(alloc: Global, places: &P, s: &Stmt) -> Result<Stmt, Memory>
    requires { is_simple (action_of s.now) ≡ true }
    ensures { IfOk result (λ r. r ≡ changed_of (P.name places.now) (P.place places.now) s.now) }
{
    match s {
        Stmt::Assign { target, value } => Ok(Stmt::Assign {
            target: places.target(*target),
            value: with_all(alloc, places, value)?,
        }),
        Stmt::Load {
            target,
            space,
            address,
        } => load(alloc, places, *target, space, address),
        Stmt::Store {
            space,
            address,
            value,
        } => store(alloc, places, space, address, value),
        Stmt::Divide {
            target,
            op,
            left,
            right,
        } => divide(alloc, places, *target, *op, left, right),
        Stmt::Call { .. } | Stmt::CallInd { .. } | Stmt::Other { .. } | Stmt::Extra { .. } => {
            changed_call(alloc, places, s)
        }
        _ => unreachable!(),
    }
}

/// The simple statement with its variables under other names.
pub fn renamed(alloc: Global, names: &Names, s: &Stmt) -> Result<Stmt, Memory>
    requires { is_simple (action_of s.now) ≡ true }
    ensures { IfOk result (λ r. r ≡ renamed_by (name_in names.now.names) s.now) }
{
    changed(alloc, names, s)
}

/// The same simple statement.
#[tactic(auto, using(crate::proofs::Parts::changed_itself))]
pub fn copy_stmt(alloc: Global, s: &Stmt) -> Result<Stmt, Memory>
    requires { is_simple (action_of s.now) ≡ true }
    ensures { IfOk result (λ r. r ≡ s.now) }
{
    changed(alloc, &Own, s)
}
