//! Sets of patterns.

ghost use Rattle.std.specs.Prelude.{◌≡◌, ℕ, ◌<◌, ◌↔◌, IsTrue, IfOk, true, false, not, length, slice_set};
ghost use Rattle.rx_base.specs.PatternSet.{has_pattern, pattern_count};

use crate::PatternID;
use std::alloc::{AllocError, Global};
use std::marker::Model;

/// A set of patterns below a capacity.
///
/// Contracts see it as a list of so many flags, each of which tells whether its pattern is in the set.
#[derive(Drop)]
pub struct PatternSet {
    len: usize,
    flags: Vec<bool>,
}

impl Model for PatternSet {
    ghost use Rattle.std.specs.Prelude.{◌≡◌, Bool, List};
    ghost use Rattle.rx_base.specs.PatternSet.{pattern_count};

    ghost Value = { List Bool };

    ghost view = { λ s. s.flags.items };

    ghost invariant = { λ s. s.len ≡ pattern_count s.flags.items };
}

impl PatternSet {
    /// No pattern, with room for those below a capacity.
    pub fn new(alloc: Global, capacity: usize) -> Result<PatternSet, AllocError>
        ensures capacity { IfOk result (λ set. length set ≡ capacity) }
        ensures empty { IfOk result (λ set. (pattern : ℕ) → has_pattern set pattern ≡ false) }
    {
        Ok(PatternSet {
            len: 0,
            flags: vec![in alloc; false; capacity]?,
        })
    }

    /// Puts a pattern into the set, which must be below the capacity. Whether it was new.
    pub fn insert(&mut self, pid: PatternID) -> bool
        requires { pid < length self.old }
        ensures new { result ≡ not (has_pattern self.old pid) }
        ensures inserted { self.new ≡ slice_set self.old pid true }
    {
        if self.flags[pid.as_usize()] {
            return false;
        }
        self.flags[pid.as_usize()] = true;
        self.len += 1;
        true
    }

    /// Whether a pattern is in the set. None past the capacity is.
    pub fn contains(&self, pid: PatternID) -> bool
        ensures { result ≡ has_pattern self.now pid }
    {
        self.flags.get(pid.as_usize()).copied().unwrap_or(false)
    }

    /// Whether every pattern below the capacity is in the set.
    pub fn is_full(&self) -> bool
        ensures { IsTrue result ↔ (pattern_count self.now ≡ length self.now) }
    {
        self.len() == self.capacity()
    }

    /// Whether no pattern is in the set.
    pub fn is_empty(&self) -> bool
        ensures { IsTrue result ↔ (pattern_count self.now ≡ 0) }
    {
        self.len() == 0
    }

    /// How many patterns are in the set.
    pub fn len(&self) -> usize
        ensures { result ≡ pattern_count self.now }
    {
        self.len
    }

    /// The number of patterns that the set can have: those below it.
    pub fn capacity(&self) -> usize
        ensures { result ≡ length self.now }
    {
        self.flags.len()
    }
}
