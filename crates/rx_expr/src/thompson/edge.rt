//! Whether all matches must begin at the edge of the haystack.

ghost use Rattle.std.specs.Prelude.{◌≡◌, ◌||◌, ◌&&◌};
ghost use Rattle.rx_spec.specs.Edge.{reads_nothing as reads_none, begins_with_edge as begins, is_edge as edge};
ghost use Rattle.rx_spec.specs.Nfas.{read_as};
ghost use Rattle.rx_expr.specs.Compiles.{all_at_edge, has_no_round};

use crate::expr::{Expr, ExprKind};
use rx_base::{Direction, Look};

/// Whether, by their form, all expressions can only match from the edge at which reading begins.
pub(super) fn all_begin_with_edge(exprs: &[Expr], direction: Direction) -> bool
    ensures { result ≡ all_at_edge direction exprs.now }
{
    exprs.iter().all(|expr| begins_with_edge(expr, direction))
}

/// Whether, by its form, an expression matches only the empty string.
fn reads_nothing(expr: &Expr) -> bool
    ensures { result ≡ reads_none expr.now }
{
    match expr.kind() {
        ExprKind::Empty => true,
        ExprKind::Look(_) => true,
        ExprKind::Class(_) => false,
        ExprKind::Concat(first, second) => reads_nothing(first) && reads_nothing(second),
        ExprKind::Alternate(first, second) => reads_nothing(first) && reads_nothing(second),
        ExprKind::Repeat { max, body, .. } => is_zero(max) || reads_nothing(body),
    }
}

fn is_zero(max: Option<u32>) -> bool
    ensures { result ≡ has_no_round max }
{
    match max {
        Some(max) => max == 0,
        None => false,
    }
}

/// Whether, by its form, an expression can only match from the edge at which reading begins.
#[cycle(begins)]
fn begins_with_edge(expr: &Expr, direction: Direction) -> bool
    ensures { result ≡ begins direction (read_as direction expr.now) }
{
    match expr.kind() {
        ExprKind::Empty => false,
        ExprKind::Class(_) => false,
        ExprKind::Look(look) => is_edge(look, direction),
        ExprKind::Concat(first, second) => {
            match direction {
                Direction::Forward => either_begins(first, second, direction),
                Direction::Reverse => either_begins(second, first, direction),
            }
        }
        ExprKind::Alternate(first, second) => {
            begins_with_edge(first, direction) && begins_with_edge(second, direction)
        }
        ExprKind::Repeat { min, body, .. } => min > 0 && begins_with_edge(body, direction),
    }
}

fn is_edge(look: Look, direction: Direction) -> bool
    ensures { result ≡ edge direction look }
{
    match direction {
        Direction::Forward => matches!(look, Look::Start),
        Direction::Reverse => matches!(look, Look::End),
    }
}

/// Whether the part that is read first begins at the edge, or reads nothing and the other part begins there.
#[cycle(begins)]
fn either_begins(front: &Expr, back: &Expr, direction: Direction) -> bool
    ensures { let first = read_as direction front.now in
        let second = read_as direction back.now in
        result ≡ (begins direction first || (reads_none first && begins direction second)) }
{
    begins_with_edge(front, direction)
        || (reads_nothing(front) && begins_with_edge(back, direction))
}
