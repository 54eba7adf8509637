//! The settings of a determinization, and its run.

ghost use Rattle.std.specs.Prelude.{◌≡◌, Bool, IfErr, None, OnOk};
ghost use Rattle.rx_spec.specs.Causes.{BuildFits};
ghost use Rattle.rx_spec.specs.declared.MatchKind.TheVariants.{LeftmostFirst};
ghost use Rattle.rx_expr.specs.Nfa.{meaning};
ghost use Rattle.rx_expr.specs.Refusals.{IsRefused, TableRefused};
ghost use Rattle.rx_determinize.specs.Begun.{IsBegun, IsBegunWith, build_in, limits_of};
ghost use Rattle.rx_build.specs.Determinized.{IsDeterminized};

use crate::{BuildError, BuildErrorKind};
use rx_base::{ByteSet, MatchKind};
use rx_dense::{OwnedDFA, PatternMapError};
use rx_determinize::{Settled, determinize};
use rx_expr::thompson::NFA;
use rx_order::shuffle;
use std::alloc::Global;
use std::marker::Model;

/// How to determinize an NFA. The default is [`Config::new`].
#[derive(Clone, Debug, Drop)]
pub struct Config {
    settled: Settled,
}

impl Model for Config {
    ghost use Rattle.rx_determinize.specs.declared.settled.Settled.{Settled};

    ghost Value = { Settled };

    ghost view = { λ c. c.settled };
}

impl Default for Config {
    ghost is_default = { λ config. config ≡ record {
      match_kind = LeftmostFirst;
      quit = 0;
      dfa_size_limit = None;
      determinize_size_limit = None;
    } };

    fn default() -> Config {
        Config::new()
    }
}

impl Config {
    /// Settings for leftmost-first matches, without quit bytes and limits.
    pub fn new() -> Config
        ensures { result ≡ record {
          match_kind = LeftmostFirst;
          quit = 0;
          dfa_size_limit = None;
          determinize_size_limit = None;
        } }
    {
        Config {
            settled: Settled {
                match_kind: MatchKind::LeftmostFirst,
                quit: ByteSet::empty(),
                dfa_size_limit: None,
                determinize_size_limit: None,
            },
        }
    }

    /// Sets which matches the table reports.
    pub fn match_kind(mut self, kind: MatchKind) -> Config
        ensures { result ≡ record self { match_kind = kind } }
    {
        self.settled.match_kind = kind;
        self
    }

    /// Sets the quit bytes.
    pub fn quit(mut self, set: ByteSet) -> Config
        ensures { result ≡ record self { quit = set } }
    {
        self.settled.quit = set;
        self
    }

    /// Sets the most bytes that the table may take. `None` is no limit.
    pub fn dfa_size_limit(mut self, bytes: Option<usize>) -> Config
        ensures { result ≡ record self { dfa_size_limit = bytes } }
    {
        self.settled.dfa_size_limit = bytes;
        self
    }

    /// Sets the most bytes that the construction's states may take. `None` is no limit.
    pub fn determinize_size_limit(mut self, bytes: Option<usize>) -> Config
        ensures { result ≡ record self { determinize_size_limit = bytes } }
    {
        self.settled.determinize_size_limit = bytes;
        self
    }

    /// Determinizes an NFA into a table that was begun for it. Drop the table if this returns an error: its states may
    /// be incomplete.
    pub fn run(&self, alloc: Global, nfa: &NFA, dfa: &mut OwnedDFA) -> Result<(), BuildError>
        requires begun { IsBegun (meaning nfa.now) self.now dfa.old }
        ensures ok { OnOk result (IsDeterminized (build_in (meaning nfa.now) self.now dfa.old) dfa.old dfa.new) }
        ensures fits { OnOk result ((byte_classes : Bool) → IsBegunWith (meaning nfa.now) self.now byte_classes dfa.old
            → BuildFits (limits_of self.now byte_classes) (build_in (meaning nfa.now) self.now dfa.old)) }
        ensures err { IfErr result (λ error. (byte_classes : Bool)
            → IsBegunWith (meaning nfa.now) self.now byte_classes dfa.old
            → IsRefused (TableRefused (limits_of self.now byte_classes) (build_in (meaning nfa.now) self.now
            dfa.old)) error.kind) }
    {
        let matches = determinize(alloc, nfa, &self.settled, dfa)?;
        match shuffle(alloc, dfa, matches) {
            Ok(()) => Ok(()),
            Err(PatternMapError::TooMany) => Err(BuildErrorKind::TooManyMatchPatternIDs.into()),
            Err(PatternMapError::Memory) => Err(BuildErrorKind::Memory.into()),
        }
    }
}
