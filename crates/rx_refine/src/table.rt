//! A table of next rows in memory.

ghost use Rattle.std.specs.Prelude.{◌≡◌, ℕ, ◌+◌, ◌*◌, ◌/◌, ◌<◌, ◌≤◌, ◌^◌, length, slice_index, All};
ghost use Rattle.rx_refine.specs.Layouts.{IsLayout, next_at};

use std::marker::Model;

/// The next rows of a table, read in place.
///
/// Contracts see a layout.
#[derive(Drop)]
pub(crate) struct Table<'a> {
    rows: usize,
    units: usize,
    /// The number of entries from the start of one row to the start of the next.
    stride: usize,
    /// An entry is its row's number shifted left by this many bits.
    shift: usize,
    entries: &'a [u32],
}

impl<'a> Model for Table<'a> {
    ghost use Rattle.rx_refine.specs.Layouts.{Layout, IsLayout};

    ghost Value = { Layout };

    ghost view = { λ t.
        record { rows = t.rows; units = t.units; stride = t.stride; shift = t.shift; entries = t.entries.now } };

    ghost invariant = { λ t. IsLayout
        (record { rows = t.rows; units = t.units; stride = t.stride; shift = t.shift; entries = t.entries.now }) };
}

impl<'a> Table<'a> {
    /// A table of rows without padding, each with an entry for each unit. An entry is the number of a row.
    pub(crate) fn from_rows(rows: usize, units: usize, entries: &'a [u32]) -> Table<'a>
        requires few { rows ≤ 2 ^ 31 }
        requires cells { length entries.now ≡ rows * units }
        requires nexts { All (λ row. row < rows) entries.now }
        ensures { result ≡ record { rows = rows; units = units; stride = units; shift = 0; entries = entries.now } }
    {
        Table {
            rows,
            units,
            stride: units,
            shift: 0,
            entries,
        }
    }

    /// A table of rows that are a power of two apart. Only the first entries of each row are read, one for each unit.
    /// An entry is the number of a row, shifted left by the exponent.
    pub(crate) fn from_ids(
        rows: usize,
        units: usize,
        stride2: usize,
        entries: &'a [u32],
    ) -> Table<'a>
        requires few { rows ≤ 2 ^ 31 }
        requires stride { stride2 ≤ 30 }
        requires units { units ≤ 2 ^ stride2 }
        requires cells { rows * 2 ^ stride2 ≤ length entries.now }
        requires ids { (row unit : ℕ) → row < rows → unit < units
            → slice_index entries.now (row * 2 ^ stride2 + unit) / 2 ^ stride2 < rows }
        ensures { result
            ≡ record { rows = rows; units = units; stride = 2 ^ stride2; shift = stride2; entries = entries.now } }
    {
        Table {
            rows,
            units,
            stride: 1 << stride2,
            shift: stride2,
            entries,
        }
    }

    /// The number of rows.
    pub(crate) fn rows(&self) -> usize
        ensures rows { result ≡ self.now.rows }
        ensures layout { IsLayout self.now }
    {
        self.rows
    }

    /// The number of units.
    pub(crate) fn units(&self) -> usize
        ensures units { result ≡ self.now.units }
        ensures layout { IsLayout self.now }
    {
        self.units
    }

    /// The row to which the unit leads.
    #[inline]
    fn next_row(&self, row: usize, unit: usize) -> u32
        requires row { row < self.now.rows }
        requires unit { unit < self.now.units }
        ensures { result ≡ next_at self.now row unit }
    {
        self.entries[row * self.stride + unit] >> self.shift
    }

    /// Copies the next rows of `count` rows from `first` on, unit after unit.
    pub(crate) fn transpose(&self, first: usize, count: usize, transposed: &mut [u32])
        requires rows { first + count ≤ self.now.rows }
        requires room { count * self.now.units ≤ length transposed.old }
        ensures { (row unit : ℕ) → row < count → unit < self.now.units
            → slice_index transposed.new (unit * count + row) ≡ next_at self.now (first + row) unit }
    {
        for row in 0..count {
            for unit in 0..self.units() {
                transposed[unit * count + row] = self.next_row(first + row, unit);
            }
        }
    }
}
