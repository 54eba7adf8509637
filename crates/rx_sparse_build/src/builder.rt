//! Builds sparse tables by the settings of a builder of dense ones.

ghost use Rattle.std.specs.Prelude.{◌≡◌, ◌<◌, ◌^◌, All, IfOk, IfErr, OnOk};
ghost use Rattle.rx_spec.specs.Causes.{BuildFits};
ghost use Rattle.rx_spec.specs.Expressions.{IsLoopSafe};
ghost use Rattle.rx_spec.specs.Nfas.{Nfa};
ghost use Rattle.rx_expr.specs.Refusals.{IsRefused, TableRefused};
ghost use Rattle.rx_build.specs.Builders.{Both, both_of};
ghost use Rattle.rx_build.specs.Built.{IsBuilt, build_of, limits_of};
ghost use Rattle.rx_build.specs.Settings.{Settled, settled};
ghost use Rattle.rx_expr.specs.Compiles.{wanted_nfa};
ghost use Rattle.rx_expr.specs.Nfa.{meaning};
ghost use Rattle.rx_order.specs.RowOrder.{IsInOrder};
ghost use Rattle.rx_sparse.specs.Facts.{IsSoundLayout};
ghost use Rattle.rx_sparse_build.specs.Built.{AreFit, IsSparse, Refused, sparse_limits};

use rx_build::{BuildError, dense};
use rx_dense::OwnedDFA;
use rx_expr::Expr;
use rx_expr::thompson::NFA;
use rx_sparse::{DFA, ToSparse};
use std::alloc::Global;

/// Builds sparse tables of expressions or of an NFA.
pub trait BuildSparse {
    /// The settings of the tables and those of the NFAs.
    ghost both: { Self → Both };

    /// Builds the sparse table of a list of expressions. The first expression is pattern 0.
    fn build_many_sparse(&self, alloc: Global, exprs: &[Expr]) -> Result<DFA<Vec<u8>>, BuildError>
        ensures ok { IfOk result (IsSparse (settled (both self.now).dense)
            (wanted_nfa (both self.now).thompson exprs.now)) }
        // So it can be searched at once.
        ensures sound { IfOk result (λ dfa. IsSoundLayout dfa.layout) }
        ensures fits { OnOk result (AreFit (settled (both self.now).dense) (both self.now).thompson exprs.now) }
        ensures err { IfErr result (λ e. IsRefused
            (Refused (settled (both self.now).dense) (both self.now).thompson exprs.now) e.kind) }
        // Each repetition in an expression is bounded.
        ensures safe { All IsLoopSafe exprs.now };

    /// Builds the sparse table of an NFA.
    fn build_sparse_from_nfa(&self, alloc: Global, nfa: &NFA) -> Result<DFA<Vec<u8>>, BuildError>
        ensures ok { IfOk result (IsSparse (settled (both self.now).dense) (meaning nfa.now)) }
        ensures sound { IfOk result (λ dfa. IsSoundLayout dfa.layout) }
        ensures fits { OnOk result (BuildFits (sparse_limits (settled (both self.now).dense))
            (build_of (settled (both self.now).dense) (meaning nfa.now))) }
        ensures err { IfErr result (λ e. IsRefused (TableRefused (sparse_limits (settled (both self.now).dense))
            (build_of (settled (both self.now).dense) (meaning nfa.now))) e.kind) };
}

impl BuildSparse for dense::Builder {
    ghost both = { λ b. both_of b };

    fn build_many_sparse(&self, alloc: Global, exprs: &[Expr]) -> Result<DFA<Vec<u8>>, BuildError> {
        let table = self.build_many(alloc, exprs)?;
        made_sparse(alloc, table)
    }

    fn build_sparse_from_nfa(&self, alloc: Global, nfa: &NFA) -> Result<DFA<Vec<u8>>, BuildError> {
        let table = self.build_from_nfa(alloc, nfa)?;
        made_sparse(alloc, table)
    }
}

/// The sparse form of a built table.
fn made_sparse(alloc: Global, table: OwnedDFA) -> Result<DFA<Vec<u8>>, BuildError>
    requires { IsInOrder table }
    ensures ok { (s : Settled) (nfa : Nfa) → IsBuilt s nfa table → IfOk result (IsSparse s nfa) }
    ensures sound { IfOk result (λ dfa. IsSoundLayout dfa.layout) }
    ensures fits { (s : Settled) (nfa : Nfa) → IsBuilt s nfa table → BuildFits (limits_of s) (build_of s nfa)
        → OnOk result (BuildFits (sparse_limits s) (build_of s nfa)) }
    ensures err { (s : Settled) (nfa : Nfa) → IsBuilt s nfa table → BuildFits (limits_of s) (build_of s nfa)
        → IfErr result (λ e. IsRefused (TableRefused (sparse_limits s) (build_of s nfa)) e.kind) }
{
    table.to_sparse(alloc)
}
