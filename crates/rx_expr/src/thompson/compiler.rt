//! The compiler of NFAs.

ghost use Rattle.std.specs.Prelude.{◌≡◌, ◌^◌, min, length, IfOk, IfErr, OnOk, All};
ghost use Rattle.rx_spec.specs.Expressions.{IsLoopSafe};
ghost use Rattle.rx_expr.specs.Compiles.{wanted_nfa, Refuses, Fits};
ghost use Rattle.rx_expr.specs.Compiler.{asked_by};
ghost use Rattle.rx_expr.specs.Settings.{asked, nothing_asked, overwritten};
ghost use Rattle.rx_expr.specs.Nfa.{meaning};

use super::build_error::BuildError;
use super::classes::byte_class_set;
use super::config::Config;
use super::edge::all_begin_with_edge;
use super::nfa::{NFA, asked_facts, look_set_any};
use super::starts::{add_patterns, any_empty, join_starts, lead_in_rows, patterns_len, starts_len};
use crate::expr::{Expr, ROWS_LIMIT};
use rx_base::{LookMatcher, PatternID, StateID};
use std::alloc::{AllocError, Global};

/// Compiles expressions into an NFA.
#[derive(Clone, Debug, Default, Drop)]
pub struct Compiler {
    config: Config,
}

impl Compiler {
    /// A compiler with default settings.
    pub fn new() -> Compiler
        ensures { asked_by result ≡ nothing_asked }
    {
        Compiler {
            config: Config::new(),
        }
    }

    /// Sets what `config` sets and keeps the other settings.
    pub fn configure(&mut self, config: Config) -> &mut Compiler
        ensures value { asked_by result.now ≡ overwritten (asked_by self.old) (asked config) }
        ensures same_reference { result.ghost_name ≡ self.entry.ghost_name }
    {
        self.config = self.config.overwrite(&config);
        self
    }

    /// The number of states of the NFA of these expressions, capped at 2^31.
    pub fn rows_len(&self, exprs: &[Expr]) -> u64
        ensures value { result ≡ min (length (wanted_nfa (asked_by self.now) exprs.now).rows) (2 ^ 31) }
        // Each repetition in an expression is bounded.
        ensures safe { All IsLoopSafe exprs.now }
    {
        let rows = patterns_len(exprs) + starts_len(exprs, self.config.direction());
        rows.min(ROWS_LIMIT)
    }

    /// Compiles a list of expressions. The first expression is pattern 0.
    ///
    /// Too many patterns or states and a passed size limit are found before any memory is taken. Then the memory for
    /// all states is taken at once.
    pub fn build_many(&self, alloc: Global, exprs: &[Expr]) -> Result<NFA, BuildError>
        ensures ok { IfOk result (λ nfa. meaning nfa ≡ wanted_nfa (asked_by self.now) exprs.now) }
        ensures fits { OnOk result (Fits (asked_by self.now) exprs.now) }
        ensures err { IfErr result (Refuses (asked_by self.now) exprs.now) }
        // Each repetition in an expression is bounded.
        ensures safe { All IsLoopSafe exprs.now }
    {
        self.check_sizes(exprs)?;
        self.build(alloc, exprs).map_err(|_| BuildError::Memory)
    }

    fn check_sizes(&self, exprs: &[Expr]) -> Result<(), BuildError>
        ensures ok { OnOk result (Fits (asked_by self.now) exprs.now) }
        ensures err { IfErr result (Refuses (asked_by self.now) exprs.now) }
        ensures safe { All IsLoopSafe exprs.now }
    {
        let rows = self.rows_len(exprs);
        if exprs.len() > PatternID::LIMIT {
            return Err(BuildError::TooManyPatterns { given: exprs.len() });
        }
        if rows > StateID::LIMIT as u64 {
            return Err(BuildError::TooManyStates { given: rows });
        }
        match self.config.get_nfa_size_limit() {
            Some(limit) if 40 * rows > limit as u64 => Err(BuildError::ExceededSizeLimit { limit }),
            _ => Ok(()),
        }
    }

    fn build(&self, alloc: Global, exprs: &[Expr]) -> Result<NFA, AllocError>
        requires fits { Fits (asked_by self.now) exprs.now }
        requires safe { All IsLoopSafe exprs.now }
        ensures { IfOk result (λ nfa. meaning nfa ≡ wanted_nfa (asked_by self.now) exprs.now) }
    {
        let direction = self.config.direction();
        let mut rows = Vec::with_capacity(alloc, self.rows_len(exprs) as usize)?;
        let mut start_patterns = Vec::with_capacity(alloc, exprs.len())?;
        add_patterns(&mut rows, &mut start_patterns, exprs, direction)?;
        let start_anchored = join_starts(&mut rows, &start_patterns)?;
        let start_unanchored = lead_in_rows(
            &mut rows,
            all_begin_with_edge(exprs, direction),
            start_anchored,
        )?;
        let asked = asked_facts(&rows);
        let look_set_any = look_set_any(&rows);
        let line_terminator = self.config.get_line_terminator();
        let byte_class_set = byte_class_set(&rows, line_terminator);
        Ok(NFA {
            rows,
            start_anchored,
            start_unanchored,
            start_patterns,
            direction,
            look_matcher: LookMatcher::new(line_terminator),
            has_empty: any_empty(exprs),
            utf8: self.config.get_utf8(),
            asked,
            look_set_any,
            byte_class_set,
        })
    }
}
