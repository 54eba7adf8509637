//! The caller of `docs/calling/rx_sparse_build.md`.

ghost use Rattle.std.specs.Prelude.{IfOk};
ghost use Rattle.rx_sparse.specs.Facts.{IsSoundLayout};

use rx_build::BuildError;
use rx_build::dense::{Builder, Config};
use rx_expr::Expr;
use rx_sparse::DFA;
use rx_sparse_build::BuildSparse;
use std::alloc::Global;

/// The sparse table with the fewest states.
pub fn smallest(alloc: Global, patterns: &[Expr]) -> Result<DFA<Vec<u8>>, BuildError>
    ensures { IfOk result (λ table. IsSoundLayout table.layout) }
{
    let mut builder = Builder::new();
    builder.configure(Config::new().minimize(true));
    builder.build_many_sparse(alloc, patterns)
}
