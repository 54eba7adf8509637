//! Dense tables: the image of a table in order, and of a built one, is read again.

ghost use Rattle.std.specs.Prelude.{◌^◌, ◌<◌};
ghost use Rattle.rx_spec.specs.Nfas.{Nfa};
ghost use Rattle.rx_dense.specs.Layouts.{IsShaped, Layout};
ghost use Rattle.rx_build.specs.Built.{IsBuilt};
ghost use Rattle.rx_build.specs.Settings.{Settled};
ghost use Rattle.rx_dense_image.specs.Images.{IsWhole};
ghost use Rattle.rx_sparse_build.specs.Finished.{IsFinished};

/// A table in order whose lists belong to its states has a layout that can be read (`IsWhole`). So an image of it is
/// read as the table that was written, in either byte order and whatever bytes follow (`rx_dense_image::laws`).
#[tactic(auto, using(crate::proofs::Whole::whole))]
pub fn finished_tables_are_whole()
    ensures { (l : Layout) → IsFinished l → IsWhole l }
{}

/// A built table has a layout that can be read. The law asks that its quit set has no bit past the last byte and that
/// the table is well formed (`IsShaped`): both are invariants of the types.
#[tactic(auto, using(crate::proofs::BuiltTables::built_whole))]
pub fn built_tables_are_whole()
    ensures { (s : Settled) (nfa : Nfa) (l : Layout) → s.quit < 2 ^ 256 → IsShaped l → IsBuilt s nfa l → IsWhole l }
{}
