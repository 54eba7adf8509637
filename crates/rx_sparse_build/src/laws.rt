//! What a built sparse table reports, and that dense tables can be made sparse.
//!
//! Each function has an empty body, and its clauses are the laws.

ghost use Rattle.std.specs.Prelude.{◌≡◌, true, false};
ghost use Rattle.rx_spec.specs.Labels.{IsLeastFor};
ghost use Rattle.rx_spec.specs.Nfas.{Nfa};
ghost use Rattle.rx_spec.specs.Power.{IsPower};
ghost use Rattle.rx_meaning.specs.Tables.{Serves};
ghost use Rattle.rx_dense.specs.Layouts.{AreRows, Layout as Dense};
ghost use Rattle.rx_order.specs.RowOrder.{IsOrdered};
ghost use Rattle.rx_build.specs.Built.{IsBuilt, build_of};
ghost use Rattle.rx_build.specs.Settings.{Settled};
ghost use Rattle.rx_sparse.specs.Facts.{IsSoundLayout};
ghost use Rattle.rx_sparse.specs.Layouts.{IsShaped, Stored, row_count, table_of};
ghost use Rattle.rx_sparse.specs.Sparse.{AreSpecialRows};
ghost use Rattle.rx_sparse_build.specs.Built.{IsSparse};

/// A built sparse table answers every search as the powerset machine of its build does. It is sound.
pub fn built_tables_serve()
    ensures serves { (s : Settled) (nfa : Nfa) (t : Stored) → IsSparse s nfa t
        → Serves (table_of t.layout) (build_of s nfa) }
    ensures sound { (s : Settled) (nfa : Nfa) (t : Stored) → IsSparse s nfa t → IsSoundLayout t.layout }
{}

/// A built sparse table has the states of the build's powerset machine, or with minimizing as few as any table of the
/// build can have.
pub fn built_tables_have_their_rows()
    ensures power { (s : Settled) (nfa : Nfa) (t : Stored) → IsSparse s nfa t → s.minimize ≡ false
        → IsPower (table_of t.layout) (build_of s nfa) }
    ensures least { (s : Settled) (nfa : Nfa) (t : Stored) → IsSparse s nfa t → s.minimize ≡ true
        → IsLeastFor (build_of s nfa) (row_count t.layout) }
{}

/// The special ids of a dense table in order are ids of rows, and so are those of a built one. `to_sparse` requires
/// that. `AreRows` states that the table has rows, which is an invariant of its type.
pub fn special_ids_are_rows()
    ensures ordered { (l : Dense) → AreRows l → IsOrdered l → AreSpecialRows l }
    ensures built { (s : Settled) (nfa : Nfa) (l : Dense) → AreRows l → IsBuilt s nfa l → AreSpecialRows l }
{}
