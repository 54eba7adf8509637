//! Calls that build a dense table by default settings.

ghost use Rattle.std.specs.Prelude.{◌≡◌, IfOk, IfErr, OnOk, All};
ghost use Rattle.rx_spec.specs.Expressions.{IsLoopSafe};
ghost use Rattle.rx_spec.specs.Nfas.{always_match, never_match};
ghost use Rattle.rx_expr.specs.Refusals.{IsRefused, TableRefused};
ghost use Rattle.rx_expr.specs.Compiles.{wanted_nfa};
ghost use Rattle.rx_expr.specs.Settings as thompson;
ghost use Rattle.rx_build.specs.Settings.{asked, nothing_asked, settled};
ghost use Rattle.rx_build.specs.Builders.{both_of, none_asked};
ghost use Rattle.rx_build.specs.Built.{AreFit, IsBuilt, Refused, build_of, limits_of};

use super::builder::Builder;
use super::config::Config;
use crate::BuildError;
use rx_dense::{DFA, OwnedDFA};
use rx_expr::Expr;
use rx_expr::thompson::NFA;
use std::alloc::Global;

/// Builds a dense table by default settings: `DFA::<Vec<u32>>::new_many(alloc, &exprs)`.
pub trait DenseBuild {
    /// Builds the table of a list of expressions. The first expression is pattern 0.
    fn new_many(alloc: Global, exprs: &[Expr]) -> Result<OwnedDFA, BuildError>
        ensures ok { IfOk result
            (IsBuilt (settled nothing_asked) (wanted_nfa thompson.nothing_asked exprs.now)) }
        ensures fits { OnOk result (AreFit (settled nothing_asked) thompson.nothing_asked exprs.now) }
        ensures err { IfErr result
            (λ e. IsRefused (Refused (settled nothing_asked) thompson.nothing_asked exprs.now) e.kind) }
        ensures safe { All IsLoopSafe exprs.now };

    /// The table of one pattern that matches the empty string everywhere.
    fn always_match(alloc: Global) -> Result<OwnedDFA, BuildError>
        ensures ok { IfOk result (IsBuilt (settled nothing_asked) always_match) }
        ensures err { IfErr result (λ e. IsRefused (TableRefused (limits_of (settled nothing_asked))
            (build_of (settled nothing_asked) always_match)) e.kind) };

    /// The table of no pattern.
    fn never_match(alloc: Global) -> Result<OwnedDFA, BuildError>
        ensures ok { IfOk result (IsBuilt (settled nothing_asked) never_match) }
        ensures err { IfErr result (λ e. IsRefused (TableRefused (limits_of (settled nothing_asked))
            (build_of (settled nothing_asked) never_match)) e.kind) };

    /// Settings of which none is set.
    fn config() -> Config
        ensures { asked result ≡ nothing_asked };

    /// A builder with default settings.
    fn builder() -> Builder
        ensures { both_of result ≡ none_asked };
}

impl DenseBuild for DFA<Vec<u32>> {
    fn new_many(alloc: Global, exprs: &[Expr]) -> Result<OwnedDFA, BuildError> {
        Builder::new().build_many(alloc, exprs)
    }

    fn always_match(alloc: Global) -> Result<OwnedDFA, BuildError> {
        let nfa = NFA::always_match(alloc)?;
        Builder::new().build_from_nfa(alloc, &nfa)
    }

    fn never_match(alloc: Global) -> Result<OwnedDFA, BuildError> {
        let nfa = NFA::never_match(alloc)?;
        Builder::new().build_from_nfa(alloc, &nfa)
    }

    fn config() -> Config {
        Config::new()
    }

    fn builder() -> Builder {
        Builder::new()
    }
}
