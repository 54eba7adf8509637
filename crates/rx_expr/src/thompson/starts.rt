//! The states of all patterns, and their starts.

ghost use Rattle.std.specs.Prelude.{◌≡◌, ◌==◌, ◌+◌, ◌-◌, ◌^◌, ◌<◌, ◌≤◌, [], min, length, IfOk, OnOk, All};
ghost use Rattle.std.specs.List.{list_any};
ghost use Rattle.rx_spec.specs.Expressions.{IsLoopSafe, min_len};
ghost use Rattle.rx_spec.specs.Nfas.{lead_in};
ghost use Rattle.rx_expr.specs.Compiles.{Adds, AddsJoined, AddsPatterns, all_at_edge, patterns_count, joined_count};
ghost use Rattle.rx_expr.specs.Compiles.{lead_count};

use super::edge::all_begin_with_edge;
use super::nfa::Row;
use super::rows::{compile, id_of, push};
use crate::expr::{Expr, ROWS_LIMIT};
use rx_base::{ByteSet, Direction, PatternID, StateID};
use std::alloc::AllocError;

/// Whether some expression can match the empty string.
pub(super) fn any_empty(exprs: &[Expr]) -> bool
    ensures { result ≡ list_any (λ e. min_len e == 0) exprs.now }
{
    exprs.iter().any(|expr| is_empty(expr))
}

fn is_empty(expr: &Expr) -> bool
    ensures { result ≡ (min_len expr.now == 0) }
{
    expr.min_len() == 0
}

/// The number of states of all patterns, capped at [`ROWS_LIMIT`].
pub(super) fn patterns_len(exprs: &[Expr]) -> u64
    ensures value { result ≡ min (patterns_count exprs.now) (2 ^ 31) }
    ensures safe { All IsLoopSafe exprs.now }
{
    let mut rows = 0;
    for expr in exprs {
        rows = (rows + 1 + expr.rows_len()).min(ROWS_LIMIT);
    }
    rows
}

/// The number of states of the starts, capped at [`ROWS_LIMIT`] plus two.
pub(super) fn starts_len(exprs: &[Expr], direction: Direction) -> u64
    ensures value { let joined = joined_count (length exprs.now) in
        result ≡ min joined (2 ^ 31) + lead_count (all_at_edge direction exprs.now) }
    ensures bound { result ≤ 2 ^ 31 + 2 }
{
    let start_of_all = match exprs.len() {
        0 => 1,
        n => (n as u64 - 1).min(ROWS_LIMIT),
    };
    if all_begin_with_edge(exprs, direction) {
        start_of_all
    } else {
        start_of_all + 2
    }
}

/// Adds the states of each expression and its match state to an empty list.
pub(super) fn add_patterns(
    rows: &mut Vec<Row>,
    starts: &mut Vec<StateID>,
    exprs: &[Expr],
    direction: Direction,
) -> Result<(), AllocError>
    requires empty { rows.old.items ≡ [] }
    requires none { starts.old.items ≡ [] }
    requires room { patterns_count exprs.now ≤ StateID.LIMIT }
    ensures { OnOk result (AddsPatterns direction exprs.now rows.new.items starts.new.items) }
{
    for (k, expr) in exprs.iter().enumerate() {
        let pattern = pattern_of(k);
        let accept = push(rows, Row::Match { pattern })?;
        let start = compile(rows, expr, direction, accept)?;
        starts.push(start)?;
    }
    Ok(())
}

/// The pattern id of a number that is in range.
fn pattern_of(n: usize) -> PatternID
    requires { n < PatternID.LIMIT }
    ensures { result ≡ n }
{
    match PatternID::new(n) {
        Ok(id) => id,
        Err(_) => PatternID::ZERO,
    }
}

/// Adds the splits that join the starts, the last pair first.
pub(super) fn join_starts(rows: &mut Vec<Row>, starts: &[StateID]) -> Result<StateID, AllocError>
    requires { length rows.old.items + joined_count (length starts.now) ≤ StateID.LIMIT }
    ensures { IfOk result (AddsJoined starts.now rows.old.items rows.new.items) }
{
    let n = starts.len();
    if n == 0 {
        return push(rows, Row::Fail);
    }
    let mut start = starts[n - 1];
    for round in 1..n {
        let first = starts[n - 1 - round];
        let second = start;
        start = push(rows, Row::Split { first, second })?;
    }
    Ok(start)
}

/// Adds a split of the anchored start and a state that reads any byte and leads back to the split. Adds nothing if
/// every match begins at the edge.
pub(super) fn lead_in_rows(
    rows: &mut Vec<Row>,
    at_edge: bool,
    anchored: StateID,
) -> Result<StateID, AllocError>
    requires { length rows.old.items + lead_count at_edge ≤ StateID.LIMIT }
    ensures { IfOk result (Adds (lead_in at_edge) rows.old.items rows.new.items anchored) }
{
    if at_edge {
        return Ok(anchored);
    }
    let any = id_of(rows.len() + 1);
    let first = anchored;
    let second = any;
    let start = push(rows, Row::Split { first, second })?;
    let set = ByteSet::full();
    let next = start;
    push(rows, Row::Bytes { set, next })?;
    Ok(start)
}
