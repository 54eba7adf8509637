//! Laws of all sparse tables.
//!
//! Each function has an empty body, and its clauses are the laws.

ghost use Rattle.std.specs.Prelude.{◌≡◌, ℕ, ◌<◌, ◌≤◌, List, get_or, length};
ghost use Rattle.rx_spec.specs.Causes.{max_id};
ghost use Rattle.rx_spec.specs.Machines.{IsWord};
ghost use Rattle.rx_spec.specs.Queries.{Anchored};
ghost use Rattle.rx_spec.specs.Tables.{AreSame, row_after};
ghost use Rattle.rx_spec.specs.declared.Start.{Start};
ghost use Rattle.rx_wire.specs.declared.order.Order.{Order};
ghost use Rattle.rx_dense.specs.Facts.{IsSoundLayout as IsSoundDense};
ghost use Rattle.rx_dense.specs.Layouts.{IsShaped as IsShapedDense, Layout as Dense, table_of as dense_table};
ghost use Rattle.rx_sparse.specs.Facts.{IsSoundLayout};
ghost use Rattle.rx_sparse.specs.Layouts.{IsShaped, table_of};
ghost use Rattle.rx_sparse.specs.Parts.{FitsBytes};
ghost use Rattle.rx_sparse.specs.Rows.{Row, no_row, rows_in, rows_text};
ghost use Rattle.rx_sparse.specs.Sparse.{AreSpecialRows, sparse_len, sparse_of};

/// The sparse form of a dense table is the same table: states by their numbers, what they report and where they lead,
/// settings, marks and needles. So it is as sound, and a walk over any word leads to the state with the same number,
/// even if end of input occurs inside the word. It is well formed if its states have no more bytes than there are ids.
pub fn a_sparse_table_is_the_dense_one()
    ensures same { (l : Dense) → IsShapedDense l → AreSpecialRows l → AreSame (dense_table l) (table_of (sparse_of l)) }
    ensures walks { (l : Dense) → IsShapedDense l → AreSpecialRows l → IsSoundDense l
        → (mode : Anchored) (start : Start) (word : List ℕ) → IsWord word
        → row_after (table_of (sparse_of l)) mode start word ≡ row_after (dense_table l) mode start word }
    ensures sound { (l : Dense) → IsShapedDense l → AreSpecialRows l → IsSoundDense l → IsSoundLayout (sparse_of l) }
    ensures shaped { (l : Dense) → IsShapedDense l → IsSoundDense l → AreSpecialRows l → sparse_len l ≤ max_id
        → IsShaped (sparse_of l) }
{}

/// The bytes of states spell these states, in either byte order.
pub fn rows_are_read_again()
    ensures { (order : Order) (rows : List Row)
        → ((i : ℕ) → i < length rows → FitsBytes (get_or rows i no_row))
        → rows_in order (length rows) (rows_text order rows) ≡ rows }
{}
