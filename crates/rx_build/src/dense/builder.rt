//! The builder of dense tables.

ghost use Rattle.std.specs.Prelude.{◌≡◌, Bool, true, false, IfOk, IfErr, OnOk, OnErr, All};
ghost use Rattle.rx_spec.specs.Builds.{Build};
ghost use Rattle.rx_spec.specs.Causes.{BuildFits};
ghost use Rattle.rx_spec.specs.Expressions.{IsLoopSafe};
ghost use Rattle.rx_dense.specs.Layouts.{Layout};
ghost use Rattle.rx_order.specs.RowOrder.{AreJoined, IsInOrder, IsPlain};
ghost use Rattle.rx_expr.specs.Refusals.{IsRefused, TableRefused};
ghost use Rattle.rx_expr.specs.Compiles.{wanted_nfa};
ghost use Rattle.rx_expr.specs.Nfa.{meaning};
ghost use Rattle.rx_build.specs.Making.{IsMade, determinized, minimized, marked_as};

use super::classes::{byte_classes, quit_bytes};
use super::config::Config;
use crate::{BuildError, accelerate, determinize};
use rx_base::ByteSet;
use rx_dense::{Flags, OwnedDFA};
use rx_expr::Expr;
use rx_expr::thompson::{self, Compiler, NFA};
use rx_minimize::minimize;
use std::alloc::{AllocError, Global};

/// Builds dense tables of expressions or of an NFA.
#[derive(Clone, Debug, Default, Drop)]
pub struct Builder {
    config: Config,
    compiler: Compiler,
}

impl Builder {
    ghost use Rattle.rx_build.specs.Settings.{asked, settled, overwritten};
    ghost use Rattle.rx_build.specs.Builders.{both_of, none_asked};
    ghost use Rattle.rx_build.specs.Built.{AreFit, IsBuilt, Refused, begun, build_of, limits_of, settings_with};
    ghost use Rattle.rx_expr.specs.Settings as thompson;

    /// A builder with default settings.
    pub fn new() -> Builder
        ensures { both_of result ≡ none_asked }
    {
        Builder {
            config: Config::new(),
            compiler: Compiler::new(),
        }
    }

    /// Sets what `config` sets and keeps the other settings of the table.
    pub fn configure(&mut self, config: Config) -> &mut Builder
        ensures value { both_of result.now
            ≡ record (both_of self.old) { dense = overwritten (both_of self.old).dense (asked config) } }
        ensures same_reference { result.ghost_name ≡ self.entry.ghost_name }
    {
        self.config = self.config.overwrite(&config);
        self
    }

    /// Sets what `config` sets and keeps the other settings of the NFA.
    pub fn thompson(&mut self, config: thompson::Config) -> &mut Builder
        ensures value { both_of result.now
            ≡ record (both_of self.old) {
              thompson = thompson.overwritten (both_of self.old).thompson (thompson.asked config);
            } }
        ensures same_reference { result.ghost_name ≡ self.entry.ghost_name }
    {
        self.compiler.configure(config);
        self
    }

    /// Builds the table of a list of expressions. The first expression is pattern 0.
    ///
    /// # Errors
    ///
    /// A `BuildError` whose cause holds, or `Memory` if memory runs out. If it succeeds, none of the other causes
    /// holds.
    pub fn build_many(&self, alloc: Global, exprs: &[Expr]) -> Result<OwnedDFA, BuildError>
        ensures ok { IfOk result (λ dfa. IsBuilt (settled (both_of self.now).dense)
            (wanted_nfa (both_of self.now).thompson exprs.now) dfa) }
        ensures fits { OnOk result
            (AreFit (settled (both_of self.now).dense) (both_of self.now).thompson exprs.now) }
        ensures err { IfErr result (λ e. IsRefused
            (Refused (settled (both_of self.now).dense) (both_of self.now).thompson exprs.now) e.kind) }
        // Each repetition in an expression is bounded.
        ensures safe { All IsLoopSafe exprs.now }
    {
        let nfa = self.compiler.build_many(alloc, exprs)?;
        self.build_from_nfa(alloc, &nfa)
    }

    /// Builds the table of an NFA.
    ///
    /// # Errors
    ///
    /// A `BuildError` whose cause holds, or `Memory` if memory runs out. If it succeeds, none of the other causes
    /// holds.
    pub fn build_from_nfa(&self, alloc: Global, nfa: &NFA) -> Result<OwnedDFA, BuildError>
        ensures ok { IfOk result (IsBuilt (settled (both_of self.now).dense) (meaning nfa.now)) }
        ensures fits { OnOk result (BuildFits (limits_of (settled (both_of self.now).dense))
            (build_of (settled (both_of self.now).dense) (meaning nfa.now))) }
        ensures err { IfErr result (λ e. IsRefused (TableRefused (limits_of (settled (both_of self.now).dense))
            (build_of (settled (both_of self.now).dense) (meaning nfa.now))) e.kind) }
    {
        let mut dfa = self.determinized(alloc, nfa)?;
        join_rows(alloc, &mut dfa, self.config.get_minimize())?;
        mark_starts(&mut dfa, self.config.get_specialize_start_states());
        find_needles(alloc, &mut dfa, self.config.get_accelerate())?;
        dfa.set_universal_starts();
        let table = dfa.with_marks()?;
        Ok(table)
    }

    /// The table before it is minimized and accelerated. All start states are marked.
    fn determinized(&self, alloc: Global, nfa: &NFA) -> Result<OwnedDFA, BuildError>
        ensures made { IfOk result (IsMade (build_of (settled (asked self.now.config)) (meaning nfa.now)) determinized
            (begun (settled (asked self.now.config)) (meaning nfa.now))) }
        ensures fits { OnOk result (BuildFits (limits_of (settled (asked self.now.config)))
            (build_of (settled (asked self.now.config)) (meaning nfa.now))) }
        ensures err { IfErr result (λ e. IsRefused (TableRefused (limits_of (settled (asked self.now.config)))
            (build_of (settled (asked self.now.config)) (meaning nfa.now))) e.kind) }
    {
        let quit = quit_bytes(
            nfa,
            &self.config.get_quit_bytes(),
            self.config.get_unicode_word_boundary(),
        );
        let mut dfa = self.begin(alloc, nfa, quit)?;
        self.determinizer(quit).run(alloc, nfa, &mut dfa)?;
        Ok(dfa)
    }

    /// A table with the NFA's classes and start kinds that has only the dead and the quit state.
    fn begin(&self, alloc: Global, nfa: &NFA, quit: ByteSet) -> Result<OwnedDFA, AllocError>
        requires { quit ≡ (build_of (settled (asked self.now.config)) (meaning nfa.now)).quit }
        ensures { IfOk result (λ dfa. dfa ≡ begun (settled (asked self.now.config)) (meaning nfa.now)) }
    {
        let flags = Flags {
            has_empty: nfa.has_empty(),
            is_utf8: nfa.is_utf8(),
            is_always_start_anchored: nfa.is_always_start_anchored(),
        };
        OwnedDFA::initial(
            alloc,
            byte_classes(nfa, &quit, self.config.get_byte_classes())?,
            nfa.pattern_len(),
            self.config.get_starts(),
            nfa.look_matcher(),
            self.config.get_starts_for_each_pattern(),
            quit,
            flags,
        )
    }

    /// The settings of the determinization.
    fn determinizer(&self, quit: ByteSet) -> determinize::Config
        ensures { result ≡ settings_with (settled (asked self.now.config)) quit }
    {
        determinize::Config::new()
            .match_kind(self.config.get_match_kind())
            .quit(quit)
            .dfa_size_limit(self.config.get_dfa_size_limit())
            .determinize_size_limit(self.config.get_determinize_size_limit())
    }
}

/// Minimizes the table if asked to.
fn join_rows(alloc: Global, dfa: &mut OwnedDFA, yes: bool) -> Result<(), AllocError>
    requires in_order { IsInOrder dfa.old }
    requires plain { IsPlain dfa.old }
    ensures { (b : Build) (begun : Layout) → IsMade b determinized begun dfa.old
        → OnOk result (IsMade b (minimized yes) begun dfa.new) }
{
    if yes {
        minimize(alloc, dfa)?;
    }
    Ok(())
}

/// Keeps the marks of start states, or removes them.
fn mark_starts(dfa: &mut OwnedDFA, yes: bool)
    requires in_order { IsInOrder dfa.old }
    requires plain { IsPlain dfa.old }
    ensures in_order { IsInOrder dfa.new }
    ensures plain { IsPlain dfa.new }
    ensures made { (b : Build) (begun : Layout) (minimize : Bool) → IsMade b (minimized minimize) begun dfa.old
        → IsMade b (marked_as minimize yes) begun dfa.new }
{
    if !yes {
        let mut special = *dfa.special();
        special.set_no_special_start_states();
        dfa.set_special(special);
    }
}

/// Accelerates the table if asked to.
fn find_needles(alloc: Global, dfa: &mut OwnedDFA, yes: bool) -> Result<(), AllocError>
    requires in_order { IsInOrder dfa.old }
    requires plain { IsPlain dfa.old }
    requires joined { AreJoined dfa.old }
    ensures { (b : Build) (begun : Layout) (minimize mark : Bool) → IsMade b (marked_as minimize mark) begun dfa.old
        → OnOk result (IsMade b (record { minimize = minimize; mark_starts = mark; accelerate = yes }) begun dfa.new) }
{
    if yes {
        accelerate(alloc, dfa)?;
    }
    Ok(())
}
