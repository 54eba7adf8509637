//! The columns of a table: for each unit, the rows to which it leads.

ghost use Rattle.std.specs.Prelude.{◌≡◌, ℕ, ◌+◌, ◌*◌, ◌<◌, ◌≤◌, [], ◌++◌, length, slice_index, slice_index_or};
ghost use Rattle.std.specs.Prelude.{slice_range, IfOk, OnOk};
ghost use Rattle.rx_refine.specs.Layouts.{AreColumns};

use crate::table::Table;
use std::alloc::{AllocError, Global};
use std::marker::Model;

/// How many cells of a table are transposed at a time, about: 16 KiB. They and their source stay in the first-level
/// cache of a processor, so the table is read in order and each column is written in order.
const CELLS: usize = 4096;

/// The least number of rows that are transposed at a time: one cache line for each column.
const LEAST_ROWS: usize = 16;

/// The greatest number of rows that are transposed at a time. More make no difference.
const MOST_ROWS: usize = 64;

/// A column of a table.
///
/// Contracts see the list of its cells.
#[derive(Drop)]
pub(crate) struct Column {
    cells: Vec<u32>,
}

impl Model for Column {
    ghost use Rattle.std.specs.Prelude.{ℕ, List};

    ghost Value = { List ℕ };

    ghost view = { λ a. a.cells.items };
}

impl Column {
    /// An empty column with room for `rows` cells.
    fn with_capacity(alloc: Global, rows: usize) -> Result<Column, AllocError>
        ensures { IfOk result (λ column. column ≡ []) }
    {
        let cells = Vec::with_capacity(alloc, rows)?;
        Ok(Column { cells })
    }

    /// Adds cells at the end.
    fn extend(&mut self, cells: &[u32]) -> Result<(), AllocError>
        ensures { IfOk result (λ _. self.new ≡ self.old ++ cells.now) }
    {
        self.cells.extend_from_slice(cells)
    }

    /// The cells.
    pub(crate) fn into_cells(self) -> Vec<u32>
        ensures { result.items ≡ self }
    {
        self.cells
    }
}

/// For each unit, the rows to which it leads.
pub(crate) fn columns_of(alloc: Global, table: &Table<'_>) -> Result<Vec<Column>, AllocError>
    ensures { IfOk result (λ columns. AreColumns table.now table.now.rows columns.items) }
{
    let rows = table.rows();
    let units = table.units();
    let mut columns = empty_columns(alloc, rows, units)?;
    let most = rows_at_once(units).min(rows);
    let mut room = vec![in alloc; 0; most * units]?;
    let transposed = room.as_mut_slice();
    let mut first = 0;
    while first < rows {
        let count = most.min(rows - first);
        table.transpose(first, count, transposed);
        add_cells(count, transposed, &mut columns)?;
        first += count;
    }
    Ok(columns)
}

/// How many rows of a table with `units` units are transposed at a time. Only speed depends on it.
fn rows_at_once(units: usize) -> usize
    ensures least { 16 ≤ result }
    ensures most { result ≤ 64 }
{
    (CELLS / units.max(1)).max(LEAST_ROWS).min(MOST_ROWS)
}

/// Empty columns, one for each unit, each with room for `rows` cells.
fn empty_columns(alloc: Global, rows: usize, units: usize) -> Result<Vec<Column>, AllocError>
    ensures len { IfOk result (λ columns. length columns.items ≡ units) }
    ensures empty { IfOk result (λ columns. (unit : ℕ) → slice_index_or columns.items unit [] ≡ []) }
{
    let mut columns = Vec::with_capacity(alloc, units)?;
    for _unit in 0..units {
        columns.push(Column::with_capacity(alloc, rows)?)?;
    }
    Ok(columns)
}

/// Adds `count` cells to each column. `transposed` has them column after column.
fn add_cells(count: usize, transposed: &[u32], columns: &mut [Column]) -> Result<(), AllocError>
    requires room { length columns.old * count ≤ length transposed.now }
    ensures { IfOk result (λ _. (unit : ℕ) → unit < length columns.old
        → slice_index_or columns.new unit []
        ≡ slice_index_or columns.old unit [] ++ slice_range transposed.now (unit * count) ((unit + 1) * count)) }
{
    for unit in 0..columns.len() {
        columns[unit].extend(&transposed[unit * count..(unit + 1) * count])?;
    }
    Ok(())
}
