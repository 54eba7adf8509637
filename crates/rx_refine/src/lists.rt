//! The lists of rows that lead to a row.

ghost use Rattle.std.specs.Prelude.{◌≡◌, ℕ, ◌+◌, ◌-◌, ◌*◌, ◌/◌, ◌<◌, ◌≤◌, ◌^◌, length, slice_index, All, IfOk};
ghost use Rattle.rx_refine.specs.Layouts.{AreColumns, next_at};
ghost use Rattle.rx_refine.specs.Moves.{Moves, AreMoves, sources, next_row};

use crate::columns::columns_of;
use crate::groups::Groups;
use crate::table::Table;
use rx_spec::Steps;
use std::alloc::{AllocError, Global};
use std::marker::{Model, PhantomData};

/// The rows of a table that lead to a row on a unit. A ledger `L` counts each read.
///
/// Contracts see the table: its rows, its units and the next row for each.
#[derive(Drop)]
pub struct Incoming<L> {
    rows: usize,
    units: usize,
    /// For each unit, the rows grouped by the row to which the unit leads.
    lists: Vec<Groups>,
    ledger: PhantomData<L>,
}

impl<L> Model for Incoming<L> {
    ghost use Rattle.std.specs.Prelude.{ℕ, List};
    ghost use Rattle.rx_refine.specs.Moves.{Moves, AreMoves};

    ghost Value = { Moves };

    ghost view = { λ a. record { rows = a.rows; units = a.units; columns = a.lists.items } };

    ghost invariant = { λ a. AreMoves (record { rows = a.rows; units = a.units; columns = a.lists.items }) };
}

impl<L> Incoming<L> {
    /// The lists of a table in which the unit `unit` leads from the row `row` to the row `next[row * units + unit]`.
    pub fn new(
        alloc: Global,
        rows: usize,
        units: usize,
        next: &[u32],
    ) -> Result<Incoming<L>, AllocError>
        requires few { rows ≤ 2 ^ 31 }
        requires cells { length next.now ≡ rows * units }
        requires nexts { All (λ row. row < rows) next.now }
        ensures rows { IfOk result (λ incoming. incoming.rows ≡ rows) }
        ensures units { IfOk result (λ incoming. incoming.units ≡ units) }
        ensures next { IfOk result (λ incoming. (row unit : ℕ) → row < rows → unit < units
            → next_row incoming row unit ≡ slice_index next.now (row * units + unit)) }
        ensures moves { IfOk result AreMoves }
    {
        Incoming::from_table(alloc, &Table::from_rows(rows, units, next))
    }

    /// The lists of a dense table, read in place. Its rows are `1 << stride2` entries apart. The unit `unit` leads from
    /// the row `row` to the row with the id `table[(row << stride2) + unit]`; a row's id is its number shifted left by
    /// `stride2`. Padding after the entries of a row isn't read.
    pub fn from_ids(
        alloc: Global,
        rows: usize,
        units: usize,
        stride2: usize,
        table: &[u32],
    ) -> Result<Incoming<L>, AllocError>
        requires few { rows ≤ 2 ^ 31 }
        requires stride { stride2 ≤ 30 }
        requires units { units ≤ 2 ^ stride2 }
        requires cells { rows * 2 ^ stride2 ≤ length table.now }
        requires ids { (row unit : ℕ) → row < rows → unit < units
            → slice_index table.now (row * 2 ^ stride2 + unit) / 2 ^ stride2 < rows }
        ensures rows { IfOk result (λ incoming. incoming.rows ≡ rows) }
        ensures units { IfOk result (λ incoming. incoming.units ≡ units) }
        ensures next { IfOk result (λ incoming. (row unit : ℕ) → row < rows → unit < units
            → next_row incoming row unit ≡ slice_index table.now (row * 2 ^ stride2 + unit) / 2 ^ stride2) }
        ensures moves { IfOk result AreMoves }
    {
        Incoming::from_table(alloc, &Table::from_ids(rows, units, stride2, table))
    }

    /// The lists of a table.
    fn from_table(alloc: Global, table: &Table<'_>) -> Result<Incoming<L>, AllocError>
        ensures rows { IfOk result (λ incoming. incoming.rows ≡ table.now.rows) }
        ensures units { IfOk result (λ incoming. incoming.units ≡ table.now.units) }
        ensures next { IfOk result (λ incoming. (row unit : ℕ) → row < table.now.rows → unit < table.now.units
            → next_row incoming row unit ≡ next_at table.now row unit) }
        ensures moves { IfOk result AreMoves }
    {
        let rows = table.rows();
        let lists = if rows == 0 {
            Vec::new(alloc)
        } else {
            lists_of(alloc, table)?
        };
        Ok(Incoming {
            rows,
            units: table.units(),
            lists,
            ledger: PhantomData,
        })
    }

    /// The number of rows that lead to `row` on `unit`. Counts one step.
    pub fn count(&self, row: usize, unit: usize, steps: &mut Steps<L>) -> usize
        requires row { row < self.now.rows }
        requires unit { unit < self.now.units }
        requires room { steps.old < 2 ^ 64 - 1 }
        ensures count { result ≡ length (sources self.now row unit) }
        ensures steps { steps.new ≡ steps.old + 1 }
    {
        steps.tick();
        self.lists[unit].rows_of(row).len()
    }

    /// The row at the index `i`, in rising order, among those that lead to `row` on `unit`. Counts one step.
    pub fn source(&self, row: usize, unit: usize, i: usize, steps: &mut Steps<L>) -> usize
        requires row { row < self.now.rows }
        requires unit { unit < self.now.units }
        requires i { i < length (sources self.now row unit) }
        requires room { steps.old < 2 ^ 64 - 1 }
        ensures source { result ≡ slice_index (sources self.now row unit) i }
        ensures steps { steps.new ≡ steps.old + 1 }
    {
        steps.tick();
        self.lists[unit].rows_of(row)[i] as usize
    }

    /// The number of rows of the table.
    pub fn rows(&self) -> usize
        ensures rows { result ≡ self.now.rows }
        ensures moves { AreMoves self.now }
    {
        self.rows
    }

    /// The number of units of the table.
    pub fn units(&self) -> usize
        ensures units { result ≡ self.now.units }
        ensures moves { AreMoves self.now }
    {
        self.units
    }
}

/// For each unit, the rows grouped by the row to which the unit leads.
fn lists_of(alloc: Global, table: &Table<'_>) -> Result<Vec<Groups>, AllocError>
    ensures { IfOk result (λ lists. AreColumns table.now table.now.rows lists.items) }
{
    let mut room = vec![in alloc; 0; table.rows()]?;
    let places = room.as_mut_slice();
    let mut lists = Vec::with_capacity(alloc, table.units())?;
    for column in columns_of(alloc, table)? {
        lists.push(Groups::new(alloc, column, places)?)?;
    }
    Ok(lists)
}
