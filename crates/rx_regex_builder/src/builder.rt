//! The builder of pairs.

ghost use Rattle.std.specs.Prelude.{◌≡◌, All, IfOk, IfErr, OnOk};
ghost use Rattle.rx_spec.specs.Expressions.{IsLoopSafe};
ghost use Rattle.rx_build.specs.Builders as tables;
ghost use Rattle.rx_build.specs.Settings.{asked, overwritten};
ghost use Rattle.rx_expr.specs.Refusals.{IsRefused};
ghost use Rattle.rx_expr.specs.Settings as nfa;
ghost use Rattle.rx_regex_builder.specs.Pairs.{taken};

use rx_base::{Direction, MatchKind, StartKind};
use rx_build::BuildError;
use rx_build::dense::{self, Config};
use rx_dense::OwnedDFA;
use rx_expr::{Expr, thompson};
use rx_pair::Regex;
use rx_search::Automaton;
use rx_sparse::DFA as SparseDFA;
use rx_sparse_build::BuildSparse;
use std::alloc::Global;

/// Builds pairs of tables.
#[derive(Clone, Debug, Default, Drop)]
pub struct Builder {
    dense: Config,
    thompson: thompson::Config,
}

impl Builder {
    ghost use Rattle.rx_build.specs.Builders.{none_asked};
    ghost use Rattle.rx_regex_builder.specs.Pairs.{AreBothFit, AreBuilt, IsFitBy, IsOf, IsRefusedBy, PairRefused};
    ghost use Rattle.rx_sparse.specs.Facts.{IsSoundLayout};
    ghost use Rattle.rx_regex_builder.specs.Pairs.{both_of, in_direction, in_reverse};
    ghost use Rattle.rx_regex_builder.specs.Pairs.{IsSparseFitBy, IsSparseOf, IsSparseRefusedBy};

    /// A builder with default settings. UTF-8 mode is on: searches pass over matches that split a character.
    pub fn new() -> Builder
        ensures { both_of result ≡ none_asked }
    {
        Builder {
            dense: Config::new(),
            thompson: thompson::Config::new(),
        }
    }

    /// Sets what `config` sets and keeps the other settings of the NFAs.
    pub fn thompson(&mut self, config: thompson::Config) -> &mut Builder
        ensures value { both_of result.now
            ≡ record (both_of self.old) { thompson = nfa.overwritten (both_of self.old).thompson (nfa.asked config) } }
        ensures same_reference { result.ghost_name ≡ self.entry.ghost_name }
    {
        self.thompson = self.thompson.overwrite(&config);
        self
    }

    /// Sets what `config` sets and keeps the other settings of the tables.
    pub fn dense(&mut self, config: Config) -> &mut Builder
        ensures value { both_of result.now
            ≡ record (both_of self.old) { dense = overwritten (both_of self.old).dense (asked config) } }
        ensures same_reference { result.ghost_name ≡ self.entry.ghost_name }
    {
        self.dense = self.dense.overwrite(&config);
        self
    }

    /// Builds the tables of a list of expressions. The first expression is pattern 0. The forward table is built first,
    /// so its error is returned first. The reverse table is built of the mirrored expressions: it reports all matches,
    /// has only anchored start states, and marks none of them.
    pub fn build_many(&self, alloc: Global, exprs: &[Expr]) -> Result<Regex<OwnedDFA>, BuildError>
        ensures ok { IfOk result (λ regex. AreBuilt IsOf (both_of self.now) exprs.now regex.forward regex.reverse) }
        ensures fits { OnOk result (AreBothFit IsFitBy (both_of self.now) exprs.now) }
        ensures err { IfErr result (λ e.
            IsRefused (PairRefused IsFitBy IsRefusedBy (both_of self.now) exprs.now) e.kind) }
        // Each repetition in an expression is bounded.
        ensures safe { All IsLoopSafe exprs.now }
    {
        let forward = self.build_one(alloc, exprs, Direction::Forward)?;
        let reverse = self.build_one(alloc, exprs, Direction::Reverse)?;
        Ok(Regex::new(forward, reverse))
    }

    /// Builds one of these two tables alone.
    pub fn build_one(
        &self,
        alloc: Global,
        exprs: &[Expr],
        direction: Direction,
    ) -> Result<OwnedDFA, BuildError>
        ensures ok { IfOk result (IsOf (in_direction direction (both_of self.now)) exprs.now) }
        ensures fits { OnOk result (IsFitBy (in_direction direction (both_of self.now)) exprs.now) }
        ensures err { IfErr result (λ e.
            IsRefused (IsRefusedBy (in_direction direction (both_of self.now)) exprs.now) e.kind) }
        // Each repetition in an expression is bounded.
        ensures safe { All IsLoopSafe exprs.now }
    {
        self.tables(direction).build_many(alloc, exprs)
    }

    /// Builds the sparse tables of a list of expressions. The settings apply as in [`Builder::build_many`].
    pub fn build_many_sparse(
        &self,
        alloc: Global,
        exprs: &[Expr],
    ) -> Result<Regex<SparseDFA<Vec<u8>>>, BuildError>
        ensures ok { IfOk result (λ regex.
            AreBuilt IsSparseOf (both_of self.now) exprs.now regex.forward regex.reverse) }
        ensures fits { OnOk result (AreBothFit IsSparseFitBy (both_of self.now) exprs.now) }
        ensures err { IfErr result (λ e.
            IsRefused (PairRefused IsSparseFitBy IsSparseRefusedBy (both_of self.now) exprs.now) e.kind) }
        // Each repetition in an expression is bounded.
        ensures safe { All IsLoopSafe exprs.now }
    {
        let forward = self.build_one_sparse(alloc, exprs, Direction::Forward)?;
        let reverse = self.build_one_sparse(alloc, exprs, Direction::Reverse)?;
        Ok(Regex::new(forward, reverse))
    }

    /// Builds one of these two sparse tables alone.
    pub fn build_one_sparse(
        &self,
        alloc: Global,
        exprs: &[Expr],
        direction: Direction,
    ) -> Result<SparseDFA<Vec<u8>>, BuildError>
        ensures ok { IfOk result (IsSparseOf (in_direction direction (both_of self.now)) exprs.now) }
        // So it can be searched at once.
        ensures sound { IfOk result (λ dfa. IsSoundLayout dfa.layout) }
        ensures fits { OnOk result (IsSparseFitBy (in_direction direction (both_of self.now)) exprs.now) }
        ensures err { IfErr result (λ e.
            IsRefused (IsSparseRefusedBy (in_direction direction (both_of self.now)) exprs.now) e.kind) }
        // Each repetition in an expression is bounded.
        ensures safe { All IsLoopSafe exprs.now }
    {
        self.tables(direction).build_many_sparse(alloc, exprs)
    }

    /// The builder of the tables of a direction.
    fn tables(&self, direction: Direction) -> dense::Builder
        ensures { tables.both_of result ≡ in_direction direction (both_of self.now) }
    {
        match direction {
            Direction::Forward => self.forward_tables(),
            Direction::Reverse => self.reverse_tables(),
        }
    }

    /// The builder of forward tables: by these settings.
    fn forward_tables(&self) -> dense::Builder
        ensures { tables.both_of result ≡ both_of self.now }
    {
        let dense = Config::new().overwrite(&self.dense);
        let thompson = thompson::Config::new().overwrite(&self.thompson);
        table_builder(dense, thompson)
    }

    /// The builder of reverse tables: they report all matches, have only anchored start states, and mark none of them.
    fn reverse_tables(&self) -> dense::Builder
        ensures { tables.both_of result ≡ in_reverse (both_of self.now) }
    {
        let dense = Config::new()
            .match_kind(MatchKind::All)
            .start_kind(StartKind::Anchored)
            .specialize_start_states(false);
        let thompson = thompson::Config::new().reverse(true);
        table_builder(
            self.dense.overwrite(&dense),
            self.thompson.overwrite(&thompson),
        )
    }

    /// Makes a pair of any two sound tables.
    pub fn build_from_dfas<A: Automaton>(&self, forward: A, reverse: A) -> Regex<A>
        requires forward { A.IsSound forward }
        requires reverse { A.IsSound reverse }
        ensures forward { result.forward ≡ forward }
        ensures reverse { result.reverse ≡ reverse }
    {
        Regex::new(forward, reverse)
    }
}

/// A builder of tables by these settings.
fn table_builder(dense: Config, thompson: thompson::Config) -> dense::Builder
    ensures { tables.both_of result ≡ taken (asked dense) (nfa.asked thompson) }
{
    let mut builder = dense::Builder::new();
    builder.configure(dense);
    builder.thompson(thompson);
    builder
}
