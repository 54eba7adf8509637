//! The NFA states that are reached without reading a byte.

ghost use Rattle.std.specs.Prelude.{◌≡◌, ◌++◌, ◌<◌, ◌≤◌, length, reverse, OnOk, IfOk};
ghost use Rattle.rx_spec.specs.Contexts.{holds_read};
ghost use Rattle.rx_spec.specs.States.{row_at};
ghost use Rattle.rx_expr.specs.Nfa.{meaning, row_of};
ghost use Rattle.rx_spec.specs.Closures.{own_by, branches_by, closed_rows};
ghost use Rattle.rx_powerset.specs.Passing.{passing_of};

use rx_base::{Direction, Facts, Look, StateID};
use rx_expr::thompson::{NFA, Row};
use std::alloc::{AllocError, Global};
use std::collections::BTreeSet;

/// What to do with an assertion.
#[derive(Clone, Copy)]
pub(crate) enum Passing {
    /// Keep it: it is decided when the next unit is known.
    Standing,
    /// Pass it if it holds between the last unit and the next one.
    Tested {
        last: Facts,
        next: Facts,
        direction: Direction,
    },
}

/// The row of an id. An id past the end has a row that goes on nowhere.
#[inline]
pub(crate) fn row_at(nfa: &NFA, id: StateID) -> Row
    ensures row { row_of result ≡ row_at (meaning nfa.now).rows id }
    ensures bound { id < StateID.LIMIT }
{
    match nfa.rows().get(id.as_usize()) {
        Some(row) => *row,
        None => Row::Fail,
    }
}

/// Whether an assertion holds, in the order of reading.
fn holds(look: Look, last: Facts, next: Facts, direction: Direction) -> bool
    ensures { result ≡ holds_read direction look last next }
{
    match direction {
        Direction::Forward => Facts::decide(look, last, next),
        Direction::Reverse => Facts::decide(look, next, last),
    }
}

/// The rows that are reached from `from` without reading a byte: each once, the preferred first.
pub(crate) fn closed(
    alloc: Global,
    nfa: &NFA,
    from: &[StateID],
    passing: &Passing,
) -> Result<Vec<StateID>, AllocError>
    ensures rows { IfOk result (λ v. v.items ≡ closed_rows (meaning nfa.now).rows (passing_of passing.now) from.now) }
    ensures bound { IfOk result (λ v. length v.items ≤ StateID.LIMIT) }
{
    let mut seen = BTreeSet::new(alloc);
    let mut found = Vec::new(alloc);
    let mut waiting: Vec<StateID> = from.iter().rev().copied().collect(alloc)?;
    'search: while let Some(id) = waiting.pop() {
        if seen.insert(id)? {
            visit(nfa, id, passing, &mut found, &mut waiting)?;
        }
    }
    Ok(found)
}

/// Lists a row that ends the search. Otherwise pushes the rows behind it on the stack, the preferred on top.
fn visit(
    nfa: &NFA,
    id: StateID,
    passing: &Passing,
    found: &mut Vec<StateID>,
    waiting: &mut Vec<StateID>,
) -> Result<(), AllocError>
    ensures bound { id < StateID.LIMIT }
    ensures found { let row = row_at (meaning nfa.now).rows id in
        OnOk result (found.new.items ≡ found.old.items ++ own_by (passing_of passing.now) id row) }
    ensures waiting { let behind = branches_by (passing_of passing.now) (row_at (meaning nfa.now).rows id) in
        OnOk result (reverse waiting.new.items ≡ behind ++ reverse waiting.old.items) }
{
    match row_at(nfa, id) {
        Row::Bytes { .. } | Row::Match { .. } => found.push(id)?,
        Row::Split { first, second } => {
            waiting.push(second)?;
            waiting.push(first)?;
        }
        Row::Look { look, next: behind } => match *passing {
            Passing::Standing => found.push(id)?,
            Passing::Tested {
                last,
                next,
                direction,
            } => {
                if holds(look, last, next, direction) {
                    waiting.push(behind)?;
                }
            }
        },
        Row::Fail => {}
    }
    Ok(())
}
