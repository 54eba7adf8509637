//! The columns that rows read.

ghost use Rattle.std.specs.Prelude.{◌≡◌, ℕ, ◌+◌, ◌<◌, ◌≤◌, ◌++◌, List};
ghost use Rattle.std.specs.Prelude.{map, filter, length, slice_index, All, IfOk, OnOk};
ghost use Rattle.std.specs.List.{range_with_len};
ghost use Rattle.rx_spec.specs.Bytes.{contains};
ghost use Rattle.rx_spec.specs.Rows.{Row as NfaRow};
ghost use Rattle.rx_spec.specs.States.{row_at, target};
ghost use Rattle.rx_stepper.specs.Columns.{AreSpans, read_by};
ghost use Rattle.rx_base.specs.Unit.{unit_number};
ghost use Rattle.rx_expr.specs.Nfa.{meaning, row_of};
ghost use Rattle.rx_stepper.specs.ByteWords.{set_of_words};
ghost use Rattle.rx_stepper.specs.ListedSets.{AreListed, Grown, IsListed, IsRowSpan};

use crate::byte_words::ByteWords;
use crate::column_span::ColumnSpan;
use crate::listed_sets::ListedSets;
use rx_base::{ByteSet, StateID, Unit};
use rx_expr::thompson::{NFA, Row};
use std::alloc::{AllocError, Global};

/// The columns that each row reads.
#[derive(Drop)]
pub(crate) struct Reading {
    /// The columns of all rows, one row after another.
    columns: Vec<u16>,
    spans: Vec<ColumnSpan>,
    /// The number of columns.
    count: usize,
    ghost are_spans: { AreSpans count columns.items spans.items },
}

impl Reading {
    ghost use Rattle.rx_stepper.specs.Columns.{led_by, Reads};

    /// The columns that the rows of an NFA read, if `units` are the units of the columns.
    pub(crate) fn new(alloc: Global, nfa: &NFA, units: &[Unit]) -> Result<Reading, AllocError>
        requires { length units.now < 65536 }
        ensures count { IfOk result (λ r. r.count ≡ length units.now) }
        ensures reads { IfOk result (λ r.
            Reads (meaning nfa.now).rows (map unit_number units.now) r.columns.items r.spans.items) }
    {
        let rows = nfa.rows();
        let mut columns = Vec::new(alloc);
        let mut listed = ListedSets::new(alloc)?;
        let mut spans = Vec::with_capacity(alloc, rows.len())?;
        for row in rows {
            spans.push(span_of_row(row, units, &mut columns, &mut listed)?)?;
        }
        Ok(Reading {
            columns,
            spans,
            count: units.len(),
        })
    }

    /// The columns that a row reads, and the row that follows. A row past the end reads none.
    #[inline]
    pub(crate) fn of(&self, row: StateID) -> (&[u16], StateID)
        ensures columns { All (λ column. column < self.now.count) result.0.now }
        ensures reads { (rows : List NfaRow) (units : List ℕ)
            → Reads rows units self.now.columns.items self.now.spans.items → (column : ℕ) → column < length units
            → led_by result.1 result.0.now column ≡ target (slice_index units column) (row_at rows row) }
    {
        match self.spans.get(row.as_usize()) {
            Some(span) => (&self.columns[span.start..span.stop], span.next),
            None => (&[], StateID::ZERO),
        }
    }
}

/// The range of the columns that a row reads, and the row that follows.
fn span_of_row(
    row: &Row,
    units: &[Unit],
    columns: &mut Vec<u16>,
    listed: &mut ListedSets,
) -> Result<ColumnSpan, AllocError>
    requires units { length units.now < 65536 }
    requires listed { AreListed (map unit_number units.now) columns.now.items listed.now.sets.items }
    ensures columns { OnOk result (Grown (length units.now) columns.old.items columns.new.items) }
    ensures listed { OnOk result (AreListed (map unit_number units.now) columns.new.items listed.new.sets.items) }
    ensures span { IfOk result (λ span.
        IsRowSpan (map unit_number units.now) columns.new.items (row_of row.now) span) }
{
    match *row {
        Row::Bytes { set, next } => {
            let (start, stop) = span_of_set(&set, units, columns, listed)?;
            Ok(ColumnSpan { start, stop, next })
        }
        _ => Ok(ColumnSpan {
            start: 0,
            stop: 0,
            next: StateID::ZERO,
        }),
    }
}

/// The range of the columns of a set. Lists them after all others if they aren't listed yet.
fn span_of_set(
    set: &ByteSet,
    units: &[Unit],
    columns: &mut Vec<u16>,
    listed: &mut ListedSets,
) -> Result<(usize, usize), AllocError>
    requires units { length units.now < 65536 }
    requires listed { AreListed (map unit_number units.now) columns.now.items listed.now.sets.items }
    ensures columns { OnOk result (Grown (length units.now) columns.old.items columns.new.items) }
    ensures listed { OnOk result (AreListed (map unit_number units.now) columns.new.items listed.new.sets.items) }
    ensures span { IfOk result (λ span.
        IsListed (map unit_number units.now) columns.new.items set.now span.0 span.1) }
{
    if let Some(span) = listed.get(set) {
        return Ok(span);
    }
    let start = columns.len();
    push_columns(set, units, columns)?;
    let stop = columns.len();
    listed.keep(set, start, stop);
    Ok((start, stop))
}

/// Adds the columns whose units are in a set.
fn push_columns(set: &ByteSet, units: &[Unit], columns: &mut Vec<u16>) -> Result<(), AllocError>
    requires { length units.now < 65536 }
    ensures { OnOk result (columns.new.items ≡ columns.old.items ++ read_by set.now (map unit_number units.now)) }
{
    let words = ByteWords::new(set);
    for (column, unit) in units.iter().enumerate() {
        if reads(&words, *unit) {
            columns.push(column as u16)?;
        }
    }
    Ok(())
}

/// Whether a unit is in a set. The end of input is in none.
fn reads(set: &ByteWords, unit: Unit) -> bool
    ensures { result ≡ contains (set_of_words set.now.words) (unit_number unit) }
{
    match unit {
        Unit::Byte(byte) => set.contains(byte),
        Unit::Eoi => false,
    }
}
