//! Calls that build a pair by default settings.

ghost use Rattle.std.specs.Prelude.{◌≡◌, All, IfOk, IfErr, OnOk};
ghost use Rattle.rx_spec.specs.Expressions.{IsLoopSafe};
ghost use Rattle.rx_build.specs.Builders.{none_asked};
ghost use Rattle.rx_expr.specs.Refusals.{IsRefused};
ghost use Rattle.rx_regex_builder.specs.Pairs.{AreBothFit, AreBuilt, PairRefused, both_of};
ghost use Rattle.rx_regex_builder.specs.Pairs.{IsFitBy, IsOf, IsRefusedBy};
ghost use Rattle.rx_regex_builder.specs.Pairs.{IsSparseFitBy, IsSparseOf, IsSparseRefusedBy};

use crate::Builder;
use rx_build::BuildError;
use rx_dense::OwnedDFA;
use rx_expr::Expr;
use rx_pair::Regex;
use rx_sparse::DFA as SparseDFA;
use std::alloc::Global;

/// Builds a pair by default settings: `Regex::new_many(alloc, &exprs)`.
pub trait RegexBuild {
    /// Builds the tables of a list of expressions. The first expression is pattern 0. UTF-8 mode is on: searches pass
    /// over matches that split a character.
    fn new_many(alloc: Global, exprs: &[Expr]) -> Result<Regex<OwnedDFA>, BuildError>
        ensures ok { IfOk result (λ regex. AreBuilt IsOf none_asked exprs.now regex.forward regex.reverse) }
        ensures fits { OnOk result (AreBothFit IsFitBy none_asked exprs.now) }
        ensures err { IfErr result (λ e. IsRefused (PairRefused IsFitBy IsRefusedBy none_asked exprs.now) e.kind) }
        ensures safe { All IsLoopSafe exprs.now };

    /// Builds the sparse tables of a list of expressions, by the same settings.
    fn new_many_sparse(
        alloc: Global,
        exprs: &[Expr],
    ) -> Result<Regex<SparseDFA<Vec<u8>>>, BuildError>
        ensures ok { IfOk result (λ regex. AreBuilt IsSparseOf none_asked exprs.now regex.forward regex.reverse) }
        ensures fits { OnOk result (AreBothFit IsSparseFitBy none_asked exprs.now) }
        ensures err { IfErr result (λ e.
            IsRefused (PairRefused IsSparseFitBy IsSparseRefusedBy none_asked exprs.now) e.kind) }
        ensures safe { All IsLoopSafe exprs.now };

    /// A builder, for other settings.
    fn builder() -> Builder
        ensures { both_of result ≡ none_asked };
}

impl RegexBuild for Regex<OwnedDFA> {
    fn new_many(alloc: Global, exprs: &[Expr]) -> Result<Regex<OwnedDFA>, BuildError> {
        Builder::new().build_many(alloc, exprs)
    }

    fn new_many_sparse(
        alloc: Global,
        exprs: &[Expr],
    ) -> Result<Regex<SparseDFA<Vec<u8>>>, BuildError> {
        Builder::new().build_many_sparse(alloc, exprs)
    }

    fn builder() -> Builder {
        Builder::new()
    }
}
