//! What simple statements do.

ghost use Rattle.std.specs.Prelude.{◌≡◌, ◌+◌, ◌≤◌, ◌<◌, List, OnOk};
ghost use Rattle.machine.specs.Trace as T;
ghost use Rattle.pcode_model.specs.declared.listing.SpaceKind.TheVariants as K;
ghost use Rattle.pcode_model.specs.Spaces.{kind_of, register_space, size_of};
ghost use Rattle.cmeaning.specs.Do.{accessed as access, divide_of as division, do_simple as done, ends, widths_in};
ghost use Rattle.cmeaning.specs.Flat.{returns_by};
ghost use Rattle.cmeaning.specs.declared.tree.Stmt.TheVariants as S;
ghost use Rattle.run_world.specs.Setting.{HasShape};
ghost use Rattle.run_world.specs.declared.entry.Answer.{Answer as AnAnswer};
ghost use Rattle.c_run.specs.May.{IsFor, IsRight, MayDo, StmtFits};
ghost use Rattle.c_run.specs.States.{Becomes, IsContext, local_of};

use crate::calls::{call, call_ind, other};
use crate::context::CContext;
use crate::local::Local;
use crate::named::number_named;
use crate::words::{read, read_left};
use bits_core::{Divide, Memory, divide};
use cmeaning::{Expr, StatementDivision, Stmt};
use pcode_model::Name;
use run_world::plain::store;
use run_world::words::word_bytes;
use run_world::{End, Shape};

/// The number of the space that a load or store names.
fn accessed(context: &CContext, space: &Option<Name>) -> u8
    requires context { IsContext context.now }
    requires ram { kind_of context.now.listing.now (access context.now.listing.now space.now) ≡ K.Ram }
    ensures { result ≡ access context.now.listing.now space.now }
{
    match space {
        None => context.setting.first_ram,
        Some(name) => number_named(name.as_slice(), context.listing.spaces.as_slice()) as u8,
    }
}

/// The shape of a ram space.
fn ram_shape(context: &CContext, space: u8) -> Shape
    requires context { IsContext context.now }
    requires ram { kind_of context.now.listing.now space ≡ K.Ram }
    ensures { HasShape context.now.listing.now space result }
{
    Shape::new(context.listing, space)
}

fn load(
    context: &CContext,
    local: &mut Local,
    target: u32,
    space: &Option<Name>,
    address: &Expr,
) -> Result<(), Memory>
    requires context { IsContext context.now }
    requires ram { kind_of context.now.listing.now (access context.now.listing.now space.now) ≡ K.Ram }
    requires target { 0 < widths_in local.old.variables.f.now target }
    requires address { IsRight (widths_in local.old.variables.f.now) address.now }
    ensures { OnOk result (Becomes context.now.answers.now local.old local.new
        (done context.now.listing.now (widths_in local.old.variables.f.now)
        (returns_by local.old.variables.f.now.callees) (S.Load target space.now address.now)
        (local_of context.now.answers.now local.old))) }
{
    let Some(address) = local.variables.value(address) else {
        local.finish(End::Undefined);
        return Ok(());
    };
    let space = accessed(context, space);
    let shape = ram_shape(context, space);
    let width = local.variables.width(target);
    let word = read(
        context,
        &local.memory,
        space,
        shape,
        shape.reduce(address.value),
        width,
    )?;
    local.variables.assign(target as usize, word);
    Ok(())
}

fn store_word(
    context: &CContext,
    local: &mut Local,
    space: &Option<Name>,
    address: &Expr,
    value: &Expr,
) -> Result<(), Memory>
    requires context { IsContext context.now }
    requires ram { kind_of context.now.listing.now (access context.now.listing.now space.now) ≡ K.Ram }
    requires address { IsRight (widths_in local.old.variables.f.now) address.now }
    requires value { IsRight (widths_in local.old.variables.f.now) value.now }
    ensures { OnOk result (Becomes context.now.answers.now local.old local.new
        (done context.now.listing.now (widths_in local.old.variables.f.now)
        (returns_by local.old.variables.f.now.callees) (S.Store space.now address.now value.now)
        (local_of context.now.answers.now local.old))) }
{
    let Some(address) = local.variables.value(address) else {
        local.finish(End::Undefined);
        return Ok(());
    };
    let Some(word) = local.variables.value(value) else {
        local.finish(End::Undefined);
        return Ok(());
    };
    let space = accessed(context, space);
    let shape = ram_shape(context, space);
    let bytes = word_bytes(
        context.alloc,
        shape.big,
        u32::from(word.width.bytes),
        word.value,
    )?;
    store(
        context.listing,
        &context.setting,
        &mut local.log,
        &mut local.memory,
        shape,
        space,
        shape.reduce(address.value),
        bytes,
    )
}

fn assign(context: &CContext, local: &mut Local, target: u32, value: &Expr)
    requires { IsFor (widths_in local.old.variables.f.now) target value.now }
    ensures { Becomes context.now.answers.now local.old local.new
        (done context.now.listing.now (widths_in local.old.variables.f.now)
        (returns_by local.old.variables.f.now.callees) (S.Assign target value.now)
        (local_of context.now.answers.now local.old)) }
{
    let word = local.variables.value(value);
    local.assign(target, word);
}

fn divide_of(op: StatementDivision) -> Divide
    ensures { result ≡ division op }
{
    match op {
        StatementDivision::Div => Divide::Quotient,
        StatementDivision::SDiv => Divide::SignedQuotient,
        StatementDivision::Rem => Divide::Remainder,
        StatementDivision::SRem => Divide::SignedRemainder,
    }
}

fn divide_words(
    context: &CContext,
    local: &mut Local,
    target: u32,
    op: StatementDivision,
    left: &Expr,
    right: &Expr,
)
    requires left { IsFor (widths_in local.old.variables.f.now) target left.now }
    requires right { IsFor (widths_in local.old.variables.f.now) target right.now }
    ensures { Becomes context.now.answers.now local.old local.new
        (done context.now.listing.now (widths_in local.old.variables.f.now)
        (returns_by local.old.variables.f.now.callees) (S.Divide target op left.now right.now)
        (local_of context.now.answers.now local.old)) }
{
    let Some(a) = local.variables.value(left) else {
        local.finish(End::Undefined);
        return;
    };
    let Some(b) = local.variables.value(right) else {
        local.finish(End::Undefined);
        return;
    };
    match divide(divide_of(op), a, b) {
        Ok(word) => local.variables.assign(target as usize, word),
        Err(_) => local.finish(End::DivZero),
    }
}

fn extra(context: &CContext, local: &mut Local, target: u32, offset: u64) -> Result<(), Memory>
    requires context { IsContext context.now }
    requires target { 0 < widths_in local.old.variables.f.now target }
    requires inside { offset + widths_in local.old.variables.f.now target
        ≤ size_of context.now.listing.now (register_space context.now.listing.now) }
    ensures { OnOk result (Becomes context.now.answers.now local.old local.new
        (done context.now.listing.now (widths_in local.old.variables.f.now)
        (returns_by local.old.variables.f.now.callees) (S.Extra target offset)
        (local_of context.now.answers.now local.old))) }
{
    let width = local.variables.width(target);
    let word = read_left(context, &local.left, offset, width)?;
    local.variables.assign(target as usize, word);
    Ok(())
}

/// What is no simple statement has no meaning as one.
fn undefined(local: &mut Local) -> Result<(), Memory>
    ensures { OnOk result ((answers : List AnAnswer)
        → Becomes answers local.old local.new (ends T.Undefined (local_of answers local.old))) }
{
    local.finish(End::Undefined);
    Ok(())
}

/// Carries out a simple statement.
pub(crate) fn do_simple(context: &CContext, local: &mut Local, s: &Stmt) -> Result<(), Memory>
    requires context { IsContext context.now }
    requires right { MayDo (widths_in local.old.variables.f.now) s.now }
    requires fits { StmtFits context.now.listing.now (widths_in local.old.variables.f.now) s.now }
    ensures { OnOk result (Becomes context.now.answers.now local.old local.new
        (done context.now.listing.now (widths_in local.old.variables.f.now)
        (returns_by local.old.variables.f.now.callees) (s.now) (local_of context.now.answers.now local.old))) }
{
    match s {
        Stmt::Assign { target, value } => {
            assign(context, local, *target, value);
            Ok(())
        }
        Stmt::Load {
            target,
            space,
            address,
        } => load(context, local, *target, space, address),
        Stmt::Store {
            space,
            address,
            value,
        } => store_word(context, local, space, address, value),
        Stmt::Call {
            target,
            callee,
            args,
        } => call(context, local, *target, *callee, args.as_slice()),
        Stmt::CallInd {
            target,
            callee,
            args,
        } => call_ind(context, local, *target, callee, args.as_slice()),
        Stmt::Other {
            target,
            index,
            args,
        } => other(context, local, *target, *index, args.as_slice()),
        Stmt::Extra { target, offset } => extra(context, local, *target, *offset),
        Stmt::Divide {
            target,
            op,
            left,
            right,
        } => {
            divide_words(context, local, *target, *op, left, right);
            Ok(())
        }
        Stmt::If { .. } => undefined(local),
        Stmt::IfElse { .. } => undefined(local),
        Stmt::While { .. } => undefined(local),
        Stmt::DoWhile { .. } => undefined(local),
        Stmt::Loop { .. } => undefined(local),
        Stmt::Break => undefined(local),
        Stmt::Switch { .. } => undefined(local),
        Stmt::Goto(_) => undefined(local),
        Stmt::Label(_) => undefined(local),
        Stmt::Return(_) => undefined(local),
    }
}
