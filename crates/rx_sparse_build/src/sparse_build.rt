//! Calls that build a sparse table by default settings.

ghost use Rattle.std.specs.Prelude.{◌≡◌, IfOk, IfErr, OnOk, All};
ghost use Rattle.rx_spec.specs.Expressions.{IsLoopSafe};
ghost use Rattle.rx_spec.specs.Nfas.{always_match, never_match};
ghost use Rattle.rx_expr.specs.Refusals.{IsRefused, TableRefused};
ghost use Rattle.rx_expr.specs.Compiles.{wanted_nfa};
ghost use Rattle.rx_expr.specs.Settings as thompson;
ghost use Rattle.rx_build.specs.Settings.{nothing_asked, settled};
ghost use Rattle.rx_build.specs.Built.{build_of};
ghost use Rattle.rx_sparse.specs.Facts.{IsSoundLayout};
ghost use Rattle.rx_sparse_build.specs.Built.{AreFit, IsSparse, Refused, sparse_limits};

use crate::BuildSparse;
use rx_build::BuildError;
use rx_build::dense::Builder;
use rx_expr::Expr;
use rx_expr::thompson::NFA;
use rx_sparse::DFA;
use std::alloc::Global;

/// Builds a sparse table by default settings: `DFA::<Vec<u8>>::new_many(alloc, &exprs)`.
pub trait SparseBuild {
    /// Builds the table of a list of expressions. The first expression is pattern 0.
    fn new_many(alloc: Global, exprs: &[Expr]) -> Result<DFA<Vec<u8>>, BuildError>
        ensures ok { IfOk result
            (IsSparse (settled nothing_asked) (wanted_nfa thompson.nothing_asked exprs.now)) }
        // So it can be searched at once.
        ensures sound { IfOk result (λ dfa. IsSoundLayout dfa.layout) }
        ensures fits { OnOk result (AreFit (settled nothing_asked) thompson.nothing_asked exprs.now) }
        ensures err { IfErr result
            (λ e. IsRefused (Refused (settled nothing_asked) thompson.nothing_asked exprs.now) e.kind) }
        ensures safe { All IsLoopSafe exprs.now };

    /// The table of one pattern that matches the empty string everywhere.
    fn always_match(alloc: Global) -> Result<DFA<Vec<u8>>, BuildError>
        ensures ok { IfOk result (IsSparse (settled nothing_asked) always_match) }
        ensures sound { IfOk result (λ dfa. IsSoundLayout dfa.layout) }
        ensures err { IfErr result (λ e. IsRefused (TableRefused (sparse_limits (settled nothing_asked))
            (build_of (settled nothing_asked) always_match)) e.kind) };

    /// The table of no pattern.
    fn never_match(alloc: Global) -> Result<DFA<Vec<u8>>, BuildError>
        ensures ok { IfOk result (IsSparse (settled nothing_asked) never_match) }
        ensures sound { IfOk result (λ dfa. IsSoundLayout dfa.layout) }
        ensures err { IfErr result (λ e. IsRefused (TableRefused (sparse_limits (settled nothing_asked))
            (build_of (settled nothing_asked) never_match)) e.kind) };
}

impl SparseBuild for DFA<Vec<u8>> {
    fn new_many(alloc: Global, exprs: &[Expr]) -> Result<DFA<Vec<u8>>, BuildError> {
        Builder::new().build_many_sparse(alloc, exprs)
    }

    fn always_match(alloc: Global) -> Result<DFA<Vec<u8>>, BuildError> {
        let nfa = NFA::always_match(alloc)?;
        Builder::new().build_sparse_from_nfa(alloc, &nfa)
    }

    fn never_match(alloc: Global) -> Result<DFA<Vec<u8>>, BuildError> {
        let nfa = NFA::never_match(alloc)?;
        Builder::new().build_sparse_from_nfa(alloc, &nfa)
    }
}
