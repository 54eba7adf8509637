//! Sparse tables: the image of a built one is read again, and so is that of the sparse form of any dense table that can
//! be read.

ghost use Rattle.std.specs.Prelude.{◌^◌, ◌<◌, ◌≤◌};
ghost use Rattle.rx_spec.specs.Causes.{max_id};
ghost use Rattle.rx_spec.specs.Nfas.{Nfa};
ghost use Rattle.rx_dense.specs.Layouts.{Layout};
ghost use Rattle.rx_dense_image.specs.Images.{IsWhole as IsWholeDense};
ghost use Rattle.rx_build.specs.Settings.{Settled};
ghost use Rattle.rx_sparse_build.specs.Finished.{IsFinished};
ghost use Rattle.rx_sparse.specs.Layouts.{Stored};
ghost use Rattle.rx_sparse.specs.Sparse.{AreSpecialRows, sparse_len, sparse_of};
ghost use Rattle.rx_sparse_build.specs.Built.{IsSparse};
ghost use Rattle.rx_sparse_image.specs.Tested.{IsWhole};

/// The sparse form of a dense table that can be read can be read too, unless its states have more bytes than there are
/// ids. So an image of it is read as the table that was written, in either byte order and whatever bytes follow
/// (`rx_sparse_image::laws`). Every table that `rx_dense_image` reads is such a dense table, whoever wrote it.
pub fn sparse_tables_are_whole()
    ensures { (l : Layout) → IsWholeDense l → sparse_len l ≤ max_id → IsWhole (sparse_of l) }
{}

/// A dense table in order whose lists belong to its states can be read, so its sparse form can.
pub fn finished_tables_are_whole()
    ensures { (l : Layout) → IsFinished l → sparse_len l ≤ max_id → IsWhole (sparse_of l) }
{}

/// A built sparse table has a layout that can be read. The law asks that its quit set has no bit past the last byte,
/// which is an invariant of its type.
pub fn built_tables_are_whole()
    ensures { (s : Settled) (nfa : Nfa) (t : Stored) → s.quit < 2 ^ 256 → IsSparse s nfa t → IsWhole t.layout }
{}

/// The special ids of a dense table that can be read are ids of rows, which `to_sparse` requires. `rx_dense_image`
/// reads only such tables.
#[tactic(auto, using(crate::proofs::DenseSpecial::special_rows))]
pub fn special_ids_are_rows()
    ensures { (l : Layout) → IsWholeDense l → AreSpecialRows l }
{}
