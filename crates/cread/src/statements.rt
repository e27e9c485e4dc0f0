//! Reading statements.

ghost use Rattle.std.specs.Prelude.{◌≡◌, Some};
ghost use Rattle.std.specs.Option.{option_map};
ghost use Rattle.ctext.specs.Names.{scope_of};
ghost use Rattle.ctext.specs.Statements.{loop_head};
ghost use Rattle.cread.specs.Words.{Gives, behind};
ghost use Rattle.cread.specs.Statements.{plain_line_at, line_at, number_at, head_at, closing as closed_at, not_own as is_no_own_break, spaced_by, body_by, closed_by, if_by, while_by, loop_by, do_by, case_at, further_cases, cases_at, past_break, arm_by, arms_by, all_arms_by, switch_by, line_by, statement_at};

use crate::expressions::expr_up_to;
use crate::item::{CFault, Line};
use crate::rights::{effect, value};
use crate::words::{decimal, ends, hex, need, past_spaces, skip};
use cmeaning::{Arm, Arms, Body, CFunction, Expr, Stmt, Values};
use std::alloc::Global;

/// What an endless loop begins with.
#[tactic(auto, unfolding(ctext::specs::Statements::loop_head))]
fn loop_words() -> &'static [u8]
    ensures { result.now ≡ loop_head }
{
    b"while (1) {\n"
}

#[tactic(auto, unfolding(crate::specs::Statements::line_at))]
fn line(bytes: &[u8]) -> Option<(Line, &[u8])>
    ensures { option_map (λ x. (x.0, x.1.now)) result ≡ line_at bytes.now }
{
    if let Some(rest) = skip(b"if (", bytes) {
        return Some((Line::If, rest));
    }
    if let Some(rest) = skip(loop_words(), bytes) {
        return Some((Line::Loop, rest));
    }
    if let Some(rest) = skip(b"while (", bytes) {
        return Some((Line::While, rest));
    }
    if let Some(rest) = skip(b"do {\n", bytes) {
        return Some((Line::Do, rest));
    }
    if let Some(rest) = skip(b"switch (", bytes) {
        return Some((Line::Switch, rest));
    }
    plain_line(bytes)
}

/// Of a statement without a body.
#[tactic(auto, unfolding(crate::specs::Statements::plain_line_at))]
fn plain_line(bytes: &[u8]) -> Option<(Line, &[u8])>
    ensures { option_map (λ x. (x.0, x.1.now)) result ≡ plain_line_at bytes.now }
{
    if let Some(rest) = skip(b"break;\n", bytes) {
        return Some((Line::Break, rest));
    }
    if let Some(rest) = skip(b"goto L", bytes) {
        return Some((Line::Goto, rest));
    }
    if let Some(rest) = skip(b"return;\n", bytes) {
        return Some((Line::Return, rest));
    }
    if let Some(rest) = skip(b"return ", bytes) {
        return Some((Line::Give, rest));
    }
    if let Some(rest) = skip(b"L", bytes) {
        return Some((Line::Label, rest));
    }
    None
}

/// The number of a label up to a word.
fn number<'b>(word: &[u8], bytes: &'b [u8]) -> Result<(u32, &'b [u8]), CFault>
    ensures { Gives (λ x. (x.0, x.1.now)) result (number_at word.now bytes.now) }
{
    let (n, rest) = decimal(bytes);
    let rest = need(word, rest)?;
    Ok(((n % 0x1_0000_0000) as u32, rest))
}

/// A condition or a switch's value, up to the brace.
fn head<'b>(alloc: Global, f: &CFunction, bytes: &'b [u8]) -> Result<(Expr, &'b [u8]), CFault>
    ensures { Gives (λ x. (x.0, x.1.now)) result (head_at (scope_of f.now) bytes.now) }
{
    expr_up_to(alloc, f, b") {\n", bytes)
}

/// What was read, up to the line that ends it.
fn closing<'b, T: Drop>(word: &[u8], found: (T, &'b [u8])) -> Result<(T, &'b [u8]), CFault>
    ensures { Gives (λ x. (x.0, x.1.now)) result (closed_at word.now (found.entry.0, found.entry.1.now)) }
{
    let rest = past_spaces(found.1);
    ends(word, (found.0, rest))
}

/// Behind the switch's own break, if it stands here.
fn behind_break(bytes: &[u8]) -> &[u8]
    ensures { result.now ≡ past_break bytes.now }
{
    match skip(b"break;\n", past_spaces(bytes)) {
        Some(rest) => rest,
        None => bytes,
    }
}

/// Whether no break of the switch itself stands here. Outside of an arm there is none.
fn not_own(arm: bool, bytes: &[u8]) -> bool
    ensures { result ≡ is_no_own_break arm bytes.now }
{
    !arm || skip(b"break;\n", bytes).is_none()
}

// ---- cases

#[tactic(auto, unfolding(crate::specs::Statements::case_at))]
fn case(bytes: &[u8]) -> Result<(u128, &[u8]), CFault>
    ensures { Gives (λ x. (x.0, x.1.now)) result (case_at bytes.now) }
{
    let rest = need(b"case 0x", past_spaces(bytes))?;
    let (n, rest) = hex(rest);
    let rest = need(b":\n", rest)?;
    Ok((n, rest))
}

#[tactic(auto, using(crate::proofs::Rows::row_more, crate::proofs::Rows::row_stops, crate::proofs::Rows::row_ends))]
fn more_cases(found: Values, bytes: &[u8]) -> Result<(Values, &[u8]), CFault>
    ensures { Gives (λ x. (x.0, x.1.now)) result (Some (behind found (further_cases bytes.now))) }
{
    let mut found = found;
    let mut rest = bytes;
    for _ in 0..bytes.len() {
        match case(rest) {
            Ok((n, more)) => {
                found.push(n)?;
                rest = more;
            }
            Err(CFault::NotC) => return Ok((found, rest)),
            Err(CFault::Memory) => return Err(CFault::Memory),
        }
    }
    Ok((found, rest))
}

/// One case line or more.
#[tactic(auto, unfolding(crate::specs::Statements::cases_at))]
fn cases(alloc: Global, bytes: &[u8]) -> Result<(Values, &[u8]), CFault>
    ensures { Gives (λ x. (x.0, x.1.now)) result (cases_at bytes.now) }
{
    let (n, rest) = case(bytes)?;
    let mut found = Values::new(alloc);
    found.push(n)?;
    more_cases(found, rest)
}

// ---- statements

/// A statement behind its spaces, within so many levels.
#[cycle(lines)]
#[tactic(auto, unfolding(crate::specs::Statements::statement_at, crate::specs::Statements::statement_by))]
fn statement<'b>(
    alloc: Global,
    f: &CFunction,
    levels: u32,
    bytes: &'b [u8],
) -> Result<(Stmt, &'b [u8]), CFault>
    ensures { Gives (λ x. (x.0, x.1.now)) result (statement_at (scope_of f.now) levels bytes.now) }
{
    if levels == 0 {
        return Err(CFault::NotC);
    }
    match line(bytes) {
        Some((word, rest)) => behind_word(alloc, f, levels - 1, word, rest),
        None => effect(alloc, f, bytes),
    }
}

#[cycle(lines)]
#[tactic(auto, unfolding(crate::specs::Statements::line_by))]
fn behind_word<'b>(
    alloc: Global,
    f: &CFunction,
    levels: u32,
    word: Line,
    bytes: &'b [u8],
) -> Result<(Stmt, &'b [u8]), CFault>
    ensures { Gives (λ x. (x.0, x.1.now)) result
        (line_by (scope_of f.now) (statement_at (scope_of f.now) levels) word bytes.now) }
{
    match word {
        Line::If => branch(alloc, f, levels, bytes),
        Line::Loop => endless(alloc, f, levels, bytes),
        Line::While => repeated(alloc, f, levels, bytes),
        Line::Do => until(alloc, f, levels, bytes),
        Line::Switch => switch(alloc, f, levels, bytes),
        Line::Break => Ok((Stmt::Break, bytes)),
        Line::Goto => {
            let (n, rest) = number(b";\n", bytes)?;
            Ok((Stmt::Goto(n), rest))
        }
        Line::Return => Ok((Stmt::Return(None), bytes)),
        Line::Give => {
            let (e, rest) = value(alloc, f, bytes)?;
            Ok((Stmt::Return(Some(e)), rest))
        }
        Line::Label => {
            let (n, rest) = number(b":\n", bytes)?;
            Ok((Stmt::Label(n), rest))
        }
    }
}

/// A statement of a body with its spaces.
#[cycle(lines)]
fn spaced<'b>(
    alloc: Global,
    f: &CFunction,
    arm: bool,
    levels: u32,
    bytes: &'b [u8],
) -> Result<(Stmt, &'b [u8]), CFault>
    ensures { Gives (λ x. (x.0, x.1.now)) result (spaced_by arm (statement_at (scope_of f.now) levels) bytes.now) }
{
    let here = past_spaces(bytes);
    if not_own(arm, here) {
        return statement(alloc, f, levels, here);
    }
    Err(CFault::NotC)
}

/// As many statements as stand in a row.
#[cycle(lines)]
#[tactic(auto, using(crate::proofs::Rows::row_more, crate::proofs::Rows::row_stops, crate::proofs::Rows::row_ends))]
pub fn body<'b>(
    alloc: Global,
    f: &CFunction,
    arm: bool,
    levels: u32,
    bytes: &'b [u8],
) -> Result<(Body, &'b [u8]), CFault>
    ensures { Gives (λ x. (x.0, x.1.now)) result (Some (body_by arm (statement_at (scope_of f.now) levels) bytes.now)) }
{
    let mut found = Body::new(alloc);
    let mut rest = bytes;
    for _ in 0..bytes.len() {
        match spaced(alloc, f, arm, levels, rest) {
            Ok((s, more)) => {
                found.push(s)?;
                rest = more;
            }
            Err(CFault::NotC) => return Ok((found, rest)),
            Err(CFault::Memory) => return Err(CFault::Memory),
        }
    }
    Ok((found, rest))
}

#[cycle(lines)]
fn closed<'b>(
    alloc: Global,
    f: &CFunction,
    levels: u32,
    bytes: &'b [u8],
) -> Result<(Body, &'b [u8]), CFault>
    ensures { Gives (λ x. (x.0, x.1.now)) result (closed_by (statement_at (scope_of f.now) levels) bytes.now) }
{
    let found = body(alloc, f, false, levels, bytes)?;
    closing(b"}\n", found)
}

#[cycle(lines)]
#[tactic(auto, unfolding(crate::specs::Statements::if_by))]
fn branch<'b>(
    alloc: Global,
    f: &CFunction,
    levels: u32,
    bytes: &'b [u8],
) -> Result<(Stmt, &'b [u8]), CFault>
    ensures { Gives (λ x. (x.0, x.1.now)) result (if_by (scope_of f.now) (statement_at (scope_of f.now) levels) bytes.now) }
{
    let (condition, rest) = head(alloc, f, bytes)?;
    let (body, rest) = body(alloc, f, false, levels, rest)?;
    if let Some(rest) = skip(b"} else {\n", past_spaces(rest)) {
        let (no, rest) = closed(alloc, f, levels, rest)?;
        return Ok((
            Stmt::IfElse {
                condition,
                yes: body,
                no,
            },
            rest,
        ));
    }
    let (body, rest) = closing(b"}\n", (body, rest))?;
    Ok((Stmt::If { condition, body }, rest))
}

#[cycle(lines)]
#[tactic(auto, unfolding(crate::specs::Statements::while_by))]
fn repeated<'b>(
    alloc: Global,
    f: &CFunction,
    levels: u32,
    bytes: &'b [u8],
) -> Result<(Stmt, &'b [u8]), CFault>
    ensures { Gives (λ x. (x.0, x.1.now)) result
        (while_by (scope_of f.now) (statement_at (scope_of f.now) levels) bytes.now) }
{
    let (condition, rest) = head(alloc, f, bytes)?;
    let (body, rest) = closed(alloc, f, levels, rest)?;
    Ok((Stmt::While { condition, body }, rest))
}

#[cycle(lines)]
#[tactic(auto, unfolding(crate::specs::Statements::loop_by))]
fn endless<'b>(
    alloc: Global,
    f: &CFunction,
    levels: u32,
    bytes: &'b [u8],
) -> Result<(Stmt, &'b [u8]), CFault>
    ensures { Gives (λ x. (x.0, x.1.now)) result (loop_by (statement_at (scope_of f.now) levels) bytes.now) }
{
    let (body, rest) = closed(alloc, f, levels, bytes)?;
    Ok((Stmt::Loop { body }, rest))
}

#[cycle(lines)]
#[tactic(auto, unfolding(crate::specs::Statements::do_by))]
fn until<'b>(
    alloc: Global,
    f: &CFunction,
    levels: u32,
    bytes: &'b [u8],
) -> Result<(Stmt, &'b [u8]), CFault>
    ensures { Gives (λ x. (x.0, x.1.now)) result (do_by (scope_of f.now) (statement_at (scope_of f.now) levels) bytes.now) }
{
    let found = body(alloc, f, false, levels, bytes)?;
    let (body, rest) = closing(b"} while (", found)?;
    let (condition, rest) = expr_up_to(alloc, f, b");\n", rest)?;
    Ok((Stmt::DoWhile { body, condition }, rest))
}

#[cycle(lines)]
#[tactic(auto, unfolding(crate::specs::Statements::arm_by))]
fn arm<'b>(
    alloc: Global,
    f: &CFunction,
    levels: u32,
    bytes: &'b [u8],
) -> Result<(Arm, &'b [u8]), CFault>
    ensures { Gives (λ x. (x.0, x.1.now)) result (arm_by (statement_at (scope_of f.now) levels) bytes.now) }
{
    let (cases, rest) = cases(alloc, bytes)?;
    let (body, rest) = body(alloc, f, true, levels, rest)?;
    Ok((Arm { cases, body }, behind_break(rest)))
}

#[cycle(lines)]
#[tactic(auto, using(crate::proofs::Rows::row_more, crate::proofs::Rows::row_stops, crate::proofs::Rows::row_ends))]
fn arms<'b>(
    alloc: Global,
    f: &CFunction,
    levels: u32,
    bytes: &'b [u8],
) -> Result<(Arms, &'b [u8]), CFault>
    ensures { Gives (λ x. (x.0, x.1.now)) result (Some (arms_by (statement_at (scope_of f.now) levels) bytes.now)) }
{
    let mut found = Arms::new(alloc);
    let mut rest = bytes;
    for _ in 0..bytes.len() {
        match arm(alloc, f, levels, rest) {
            Ok((a, more)) => {
                found.push(a)?;
                rest = more;
            }
            Err(CFault::NotC) => return Ok((found, rest)),
            Err(CFault::Memory) => return Err(CFault::Memory),
        }
    }
    Ok((found, rest))
}

#[cycle(lines)]
fn all_arms<'b>(
    alloc: Global,
    f: &CFunction,
    levels: u32,
    bytes: &'b [u8],
) -> Result<(Arms, &'b [u8]), CFault>
    ensures { Gives (λ x. (x.0, x.1.now)) result (all_arms_by (statement_at (scope_of f.now) levels) bytes.now) }
{
    let found = arms(alloc, f, levels, bytes)?;
    closing(b"}\n", found)
}

#[cycle(lines)]
#[tactic(auto, unfolding(crate::specs::Statements::switch_by))]
fn switch<'b>(
    alloc: Global,
    f: &CFunction,
    levels: u32,
    bytes: &'b [u8],
) -> Result<(Stmt, &'b [u8]), CFault>
    ensures { Gives (λ x. (x.0, x.1.now)) result
        (switch_by (scope_of f.now) (statement_at (scope_of f.now) levels) bytes.now) }
{
    let (value, rest) = head(alloc, f, bytes)?;
    let (arms, rest) = all_arms(alloc, f, levels, rest)?;
    Ok((Stmt::Switch { value, arms }, rest))
}
