//! The caller of `docs/calling/rx_build.md`.

ghost use Rattle.std.specs.Prelude.{IfOk};
ghost use Rattle.rx_order.specs.RowOrder.{IsInOrder};

use rx_base::{MatchKind, StartKind};
use rx_build::BuildError;
use rx_build::dense::{Builder, Config};
use rx_dense::OwnedDFA;
use rx_expr::{Expr, thompson};
use std::alloc::Global;

/// The table of a scanner: it reports all matches, only from a known start, in at most a megabyte.
pub fn scanner_table(alloc: Global, patterns: &[Expr]) -> Result<OwnedDFA, BuildError>
    ensures { IfOk result IsInOrder }
{
    let config = Config::new()
        .match_kind(MatchKind::All)
        .start_kind(StartKind::Anchored)
        .minimize(true)
        .dfa_size_limit(Some(1 << 20));
    let mut builder = Builder::new();
    builder.configure(config);
    builder.thompson(thompson::Config::new().utf8(false));
    builder.build_many(alloc, patterns)
}
