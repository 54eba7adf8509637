//! NFA rows as closures need them.

ghost use Rattle.std.specs.Prelude.{◌≡◌, ◌+◌, ◌<◌, ◌≤◌, ◌++◌, length, reverse, vec_capacity, IfOk};
ghost use Rattle.rx_spec.specs.Causes.{id_count};
ghost use Rattle.rx_spec.specs.States.{is_look_row};
ghost use Rattle.rx_spec.specs.Closures.{own_by, branches_by};
ghost use Rattle.rx_expr.specs.Nfa.{meaning, row_of};
ghost use Rattle.rx_stepper.specs.ThinRows.{row_of_thin, AreThin, IsThin};

use rx_base::{Look, PatternID, StateID};
use rx_expr::thompson::{NFA, Row};
use std::alloc::{AllocError, Global};

/// A row of an NFA without the set that it reads, so that a row takes little memory.
#[derive(Clone, Copy)]
pub(crate) enum ThinRow {
    /// It reads a byte.
    Bytes,
    /// Goes on at both rows without reading a byte. The first is preferred.
    Split(StateID, StateID),
    /// It goes on where an assertion holds.
    Look(Look, StateID),
    /// A match of a pattern.
    Match(PatternID),
    /// It goes on nowhere.
    Fail,
}

impl ThinRow {
    ghost use Rattle.rx_stepper.specs.ThinRows.{row_of_thin, is_end, AreThin, IsThin};

    fn new(row: &Row) -> ThinRow
        ensures { IsThin (row_of_thin result) (row_of row.now) }
    {
        match *row {
            Row::Bytes { .. } => ThinRow::Bytes,
            Row::Split { first, second } => ThinRow::Split(first, second),
            Row::Look { look, next } => ThinRow::Look(look, next),
            Row::Match { pattern } => ThinRow::Match(pattern),
            Row::Fail => ThinRow::Fail,
        }
    }

    /// Whether it is an assertion.
    #[inline]
    pub(crate) fn is_look(&self) -> bool
        ensures { result ≡ is_look_row (row_of_thin self.now) }
    {
        match *self {
            ThinRow::Look(..) => true,
            _ => false,
        }
    }

    /// Whether a closure lists the row itself and goes no further.
    #[inline]
    pub(crate) fn is_end(&self) -> bool
        ensures { result ≡ is_end self.now }
    {
        match *self {
            ThinRow::Bytes | ThinRow::Match(_) => true,
            _ => false,
        }
    }
}

/// The rows of an NFA.
pub(crate) fn thin_rows(alloc: Global, nfa: &NFA) -> Result<Vec<ThinRow>, AllocError>
    ensures len { IfOk result (λ v. length v.items ≡ length (meaning nfa.now).rows) }
    ensures rows { IfOk result (λ v. AreThin v.items (meaning nfa.now).rows) }
{
    let rows = nfa.rows();
    let mut thin = Vec::with_capacity(alloc, rows.len())?;
    for row in rows {
        thin.push(ThinRow::new(row))?;
    }
    Ok(thin)
}
