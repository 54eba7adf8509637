//! The two tables of a plan.

ghost use Rattle.rx_regex.specs.Pairs.{IsPair};
ghost use Rattle.rx_regex.specs.Forms.{pair_of};

use rx_dense::OwnedDFA;
use rx_pair::Regex;
use rx_sparse::DFA as SparseDFA;

/// The pair of tables, in the form that a plan sets.
#[derive(Drop)]
pub(crate) enum Tables {
    Dense(Regex<OwnedDFA>),
    Sparse(Regex<SparseDFA<Vec<u8>>>),
}

/// The two tables of a plan: forward for the end of a match, in reverse for its start. Build them once and search them
/// any number of times.
#[derive(Drop)]
pub struct Built {
    pub(crate) tables: Tables,

    // They are the tables of one plan and one list of expressions.
    ghost planned: { ∥ IsPair (pair_of tables) ∥₁ },
}
