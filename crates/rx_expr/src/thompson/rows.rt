//! The states of one expression.

ghost use Rattle.std.specs.Prelude.{◌≡◌, ◌+◌, ◌*◌, ◌≤◌, ◌++◌, ◌∷◌, [], IfOk, length, ◌<◌, slice_set};
ghost use Rattle.rx_spec.specs.Rows.{rows_count, repeated_count, chained, either, repeated};
ghost use Rattle.rx_spec.specs.Rows.{copies as copied, optional as optioned, loop as looped, choice as chosen};
ghost use Rattle.rx_expr.specs.Compiles.{Adds, AddsRow, maker};
ghost use Rattle.rx_expr.specs.Nfa.{row_of};

use super::nfa::Row;
use crate::expr::{Expr, ExprKind};
use rx_base::{Direction, StateID};
use std::alloc::AllocError;

/// The id of a number that is in range.
pub(super) fn id_of(n: usize) -> StateID
    requires { n < StateID.LIMIT }
    ensures { result ≡ n }
{
    match StateID::new(n) {
        Ok(id) => id,
        Err(_) => StateID::ZERO,
    }
}

/// Adds a state and returns its id.
pub(super) fn push(rows: &mut Vec<Row>, row: Row) -> Result<StateID, AllocError>
    requires { length rows.old.items < StateID.LIMIT }
    ensures { IfOk result (AddsRow row rows.old.items rows.new.items) }
{
    let id = id_of(rows.len());
    rows.push(row)?;
    Ok(id)
}

/// A split between a body and what follows it. A greedy one prefers the body.
fn choice(greedy: bool, body: StateID, next: StateID) -> Row
    ensures { row_of result ≡ chosen greedy body next }
{
    if greedy {
        Row::Split {
            first: body,
            second: next,
        }
    } else {
        Row::Split {
            first: next,
            second: body,
        }
    }
}

/// Adds the states of an expression before `next` and returns the state where they are entered.
///
/// Parts without states are passed over, so the time is that of the states that are added.
#[cycle(compile)]
pub(super) fn compile(
    rows: &mut Vec<Row>,
    expr: &Expr,
    direction: Direction,
    next: StateID,
) -> Result<StateID, AllocError>
    requires { length rows.old.items + rows_count expr.now ≤ StateID.LIMIT }
    ensures { IfOk result (Adds (maker direction expr.now) rows.old.items rows.new.items next) }
{
    if expr.rows_len() == 0 {
        return Ok(next);
    }
    match expr.kind() {
        ExprKind::Empty => Ok(next),
        ExprKind::Class(set) => push(rows, Row::Bytes { set, next }),
        ExprKind::Look(look) => push(rows, Row::Look { look, next }),
        ExprKind::Concat(first, second) => {
            match direction {
                Direction::Forward => concat(rows, first, second, direction, next),
                Direction::Reverse => concat(rows, second, first, direction, next),
            }
        }
        ExprKind::Alternate(first, second) => alternate(rows, first, second, direction, next),
        ExprKind::Repeat {
            min,
            max,
            greedy,
            body,
        } => repeat(rows, body, direction, (min, max), greedy, next),
    }
}

/// Adds the states of a repetition. Those of the optional rounds are added first.
#[cycle(compile)]
fn repeat(
    rows: &mut Vec<Row>,
    body: &Expr,
    direction: Direction,
    bounds: (u32, Option<u32>),
    greedy: bool,
    next: StateID,
) -> Result<StateID, AllocError>
    requires { length rows.old.items + repeated_count bounds.0 bounds.1 (rows_count body.now) ≤ StateID.LIMIT }
    ensures { let make = repeated bounds.0 bounds.1 greedy (maker direction body.now) in
        IfOk result (Adds make rows.old.items rows.new.items next) }
{
    let min = bounds.0;
    match bounds.1 {
        None => {
            let behind = repeat_forever(rows, body, direction, greedy, next)?;
            repeat_exactly(rows, body, direction, min, behind)
        }
        Some(max) => {
            let rounds = max.saturating_sub(min);
            let behind = repeat_up_to(rows, body, direction, greedy, rounds, next)?;
            repeat_exactly(rows, body, direction, min, behind)
        }
    }
}

/// Adds the states of a concatenation. Those of the part that is read last are added first.
#[cycle(compile)]
fn concat(
    rows: &mut Vec<Row>,
    front: &Expr,
    back: &Expr,
    direction: Direction,
    next: StateID,
) -> Result<StateID, AllocError>
    requires { length rows.old.items + rows_count front.now + rows_count back.now ≤ StateID.LIMIT }
    ensures { let make = chained (maker direction front.now) (maker direction back.now) in
        IfOk result (Adds make rows.old.items rows.new.items next) }
{
    let behind = compile(rows, back, direction, next)?;
    compile(rows, front, direction, behind)
}

/// Adds the states of both parts and a split of them.
#[cycle(compile)]
fn alternate(
    rows: &mut Vec<Row>,
    first: &Expr,
    second: &Expr,
    direction: Direction,
    next: StateID,
) -> Result<StateID, AllocError>
    requires { length rows.old.items + rows_count first.now + rows_count second.now + 1 ≤ StateID.LIMIT }
    ensures { let make = either (maker direction first.now) (maker direction second.now) in
        IfOk result (Adds make rows.old.items rows.new.items next) }
{
    let first = compile(rows, first, direction, next)?;
    let second = compile(rows, second, direction, next)?;
    push(rows, Row::Split { first, second })
}

/// Adds `count` copies of a body, the last copy first.
#[cycle(compile)]
fn repeat_exactly(
    rows: &mut Vec<Row>,
    body: &Expr,
    direction: Direction,
    count: u32,
    next: StateID,
) -> Result<StateID, AllocError>
    requires { length rows.old.items + count * rows_count body.now ≤ StateID.LIMIT }
    ensures { IfOk result (Adds (copied count (maker direction body.now)) rows.old.items rows.new.items next) }
{
    if body.rows_len() == 0 {
        return Ok(next);
    }
    let mut entry = next;
    for round in 0..count {
        entry = compile(rows, body, direction, entry)?;
    }
    Ok(entry)
}

/// Adds `count` optional copies of a body, the last copy first.
#[cycle(compile)]
fn repeat_up_to(
    rows: &mut Vec<Row>,
    body: &Expr,
    direction: Direction,
    greedy: bool,
    count: u32,
    next: StateID,
) -> Result<StateID, AllocError>
    requires { length rows.old.items + count * (rows_count body.now + 1) ≤ StateID.LIMIT }
    ensures { IfOk result (Adds (optioned greedy count (maker direction body.now)) rows.old.items rows.new.items next) }
{
    let mut entry = next;
    for round in 0..count {
        let body_entry = compile(rows, body, direction, entry)?;
        entry = push(rows, choice(greedy, body_entry, next))?;
    }
    Ok(entry)
}

/// Adds a split that the body leads back to.
#[cycle(compile)]
fn repeat_forever(
    rows: &mut Vec<Row>,
    body: &Expr,
    direction: Direction,
    greedy: bool,
    next: StateID,
) -> Result<StateID, AllocError>
    requires { length rows.old.items + rows_count body.now + 1 ≤ StateID.LIMIT }
    ensures { IfOk result (Adds (looped greedy (maker direction body.now)) rows.old.items rows.new.items next) }
{
    let split = push(rows, Row::Fail)?;
    let round = compile(rows, body, direction, split)?;
    put(rows, split.as_usize(), choice(greedy, round, next));
    Ok(split)
}

/// Replaces a state.
fn put(rows: &mut Vec<Row>, index: usize, row: Row)
    requires { index < length rows.old.items }
    ensures { rows.new.items ≡ slice_set rows.old.items index row }
{
    rows[index] = row;
}
