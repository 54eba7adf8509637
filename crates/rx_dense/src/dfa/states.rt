//! Rows, handed out one by one, with what leads from them.

ghost use Rattle.std.specs.Prelude.{◌≡◌, ◌<◌, ◌≤◌, ◌+◌, length};
ghost use Rattle.rx_dense.specs.Layouts.{AreRows, row_count};
ghost use Rattle.rx_dense.specs.States.{column_unit, range_end, row_at, rows_from, sparse_transitions_from};
ghost use Rattle.rx_dense.specs.States.{transitions_from};

use crate::{DFA, WordStore};
use rx_base::{StateID, Unit};
use std::marker::Model;
use std::ops::Range;

impl<T: WordStore> DFA<T> {
    /// The rows, in their order.
    pub fn states(&self) -> StateIter<'_, T>
        ensures rows { result ≡ rows_from self.now 0 }
        ensures are_rows { AreRows self.now }
    {
        StateIter {
            dfa: self,
            rows: 0..self.state_len(),
        }
    }

    /// A row, by its number.
    fn state(&self, row: usize) -> State<'_>
        requires { row < row_count self.now }
        ensures { result ≡ row_at self.now row }
    {
        let words = self.words();
        let first = row << self.stride2();
        State {
            id: StateID::must(first),
            transitions: &words[first..first + self.alphabet_len()],
        }
    }
}

/// The rows that [`DFA::states`] yields.
///
/// Contracts see it as the list of those that are left.
#[derive(Drop)]
pub struct StateIter<'a, T: WordStore> {
    dfa: &'a DFA<T>,
    /// The numbers of the rows that weren't yielded.
    rows: Range<usize>,
}

impl<'a, T: WordStore> Model for StateIter<'a, T> {
    ghost use Rattle.std.specs.Prelude.{◌≡◌, List};
    ghost use Rattle.rx_dense.specs.Layouts.{row_count};
    ghost use Rattle.rx_dense.specs.States.{Row, rows_from};

    ghost Value = { List Row };

    ghost view = { λ s. rows_from s.dfa.now s.rows.start };

    ghost invariant = { λ s. s.rows.end ≡ row_count s.dfa.now };
}

impl<'a, T: WordStore> Iterator for StateIter<'a, T> {
    ghost use Rattle.std.specs.Iterator.{YieldsFirst, item_count};

    type Item = State<'a>;

    ghost next_gives = { YieldsFirst (λ left. left) };

    ghost remaining = { item_count (λ left. left) };

    fn next(&mut self) -> Option<State<'a>> {
        let row = self.rows.next()?;
        Some(self.dfa.state(row))
    }
}

/// A row of a table, with what leads from it.
///
/// Contracts see it as a `Row`: its id, and the ids of its next rows, one for each class and one for the end mark.
#[derive(Clone, Debug, Drop)]
pub struct State<'a> {
    id: StateID,
    transitions: &'a [u32],
}

impl<'a> Model for State<'a> {
    ghost use Rattle.rx_dense.specs.States.{AreNextIds, Row};

    ghost Value = { Row };

    ghost view = { λ s. record { id = s.id; next_ids = s.transitions.now } };

    ghost invariant = { λ s. AreNextIds s.transitions.now };
}

impl<'a> State<'a> {
    /// The row's id.
    pub fn id(&self) -> StateID
        ensures { result ≡ self.now.id }
    {
        self.id
    }

    /// The next row for each class in order, and last that for the end mark. A class stands as the byte of its
    /// number.
    pub fn transitions(&self) -> StateTransitionIter<'a>
        ensures { result ≡ transitions_from self.now.next_ids 0 }
    {
        StateTransitionIter {
            transitions: self.transitions,
            column: 0,
        }
    }

    /// The next rows but the dead one, by ranges: each with the first and the last class of a maximal range that
    /// leads there. The end mark is a range of its own.
    pub fn sparse_transitions(&self) -> StateSparseTransitionIter<'a>
        ensures { result ≡ sparse_transitions_from self.now.next_ids 0 }
    {
        StateSparseTransitionIter {
            transitions: self.transitions,
            column: 0,
        }
    }
}

/// The units and next rows that [`State::transitions`] yields.
///
/// Contracts see it as the list of those that are left.
#[derive(Clone, Debug, Drop)]
pub struct StateTransitionIter<'a> {
    transitions: &'a [u32],
    /// The first column that wasn't yielded.
    column: usize,
}

impl<'a> Model for StateTransitionIter<'a> {
    ghost use Rattle.std.specs.Prelude.{ℕ, List};
    ghost use Rattle.rx_spec.specs.declared.Unit.{Unit};
    ghost use Rattle.rx_dense.specs.States.{AreNextIds, transitions_from};

    ghost Value = { List (Unit × ℕ) };

    ghost view = { λ t. transitions_from t.transitions.now t.column };

    ghost invariant = { λ t. AreNextIds t.transitions.now };
}

impl<'a> Iterator for StateTransitionIter<'a> {
    ghost use Rattle.std.specs.Iterator.{YieldsFirst, item_count};

    type Item = (Unit, StateID);

    ghost next_gives = { YieldsFirst (λ left. left) };

    ghost remaining = { item_count (λ left. left) };

    fn next(&mut self) -> Option<(Unit, StateID)> {
        let columns = self.transitions.len();
        if self.column >= columns {
            return None;
        }
        let unit = unit_of_column(columns, self.column);
        let next = StateID::must(self.transitions[self.column] as usize);
        self.column += 1;
        Some((unit, next))
    }
}

/// The ranges and next rows that [`State::sparse_transitions`] yields.
///
/// Contracts see it as the list of those that are left.
#[derive(Clone, Debug, Drop)]
pub struct StateSparseTransitionIter<'a> {
    transitions: &'a [u32],
    /// The first column that wasn't yielded or passed over. If it is that of a class, a range begins there.
    column: usize,
}

impl<'a> Model for StateSparseTransitionIter<'a> {
    ghost use Rattle.std.specs.Prelude.{ℕ, ◌≡◌, ◌<◌, ◌+◌, List, length, true};
    ghost use Rattle.rx_spec.specs.declared.Unit.{Unit};
    ghost use Rattle.rx_dense.specs.States.{AreNextIds, begins_range, sparse_transitions_from};

    ghost Value = { List (Unit × Unit × ℕ) };

    ghost view = { λ t. sparse_transitions_from t.transitions.now t.column };

    ghost invariant = { λ t. AreNextIds t.transitions.now
        × (t.column + 1 < length t.transitions.now → begins_range t.transitions.now t.column ≡ true) };
}

impl<'a> Iterator for StateSparseTransitionIter<'a> {
    ghost use Rattle.std.specs.Iterator.{YieldsFirst, item_count};

    type Item = (Unit, Unit, StateID);

    ghost next_gives = { YieldsFirst (λ left. left) };

    ghost remaining = { item_count (λ left. left) };

    fn next(&mut self) -> Option<(Unit, Unit, StateID)> {
        let eoi = self.transitions.len() - 1;
        while self.column < eoi {
            let first = self.column;
            self.column = range_end(self.transitions, first);
            let next = self.transitions[first] as usize;
            if next != 0 {
                let last = self.column - 1;
                return Some((
                    Unit::Byte(first as u8),
                    Unit::Byte(last as u8),
                    StateID::must(next),
                ));
            }
        }
        if self.column > eoi {
            return None;
        }
        self.column = eoi + 1;
        let next = self.transitions[eoi] as usize;
        if next == 0 {
            return None;
        }
        Some((Unit::Eoi, Unit::Eoi, StateID::must(next)))
    }
}

/// The unit of a column, of so many: its class as a byte, or in the last column the end mark.
fn unit_of_column(columns: usize, column: usize) -> Unit
    requires few { columns ≤ 257 }
    requires within { column < columns }
    ensures { result ≡ column_unit columns column }
{
    if column + 1 == columns {
        Unit::Eoi
    } else {
        Unit::Byte(column as u8)
    }
}

/// The column behind the range of classes that begins at one.
fn range_end(transitions: &[u32], first: usize) -> usize
    requires { first + 1 < length transitions.now }
    ensures value { result ≡ range_end transitions.now first }
    ensures after { first < result }
    ensures within { result < length transitions.now }
{
    let next = transitions[first];
    let classes = &transitions[first..transitions.len() - 1];
    first + classes.iter().take_while(|id| **id == next).count()
}
