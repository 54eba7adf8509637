//! What is asked of a search, and what it tells.

ghost use Rattle.std.specs.Prelude.{◌≡◌, ◌≤◌, ◌↔◌, IsTrue};
ghost use Rattle.rx_spec.specs.Queries.{is_anchored};
ghost use Rattle.rx_base.specs.Search.{mode_of, named_pattern};

use crate::primitives::PatternID;
use std::marker::Model;

/// A range of offsets: from `start` up to `end`, which is not part of it.
#[derive(Clone, Copy, Debug, PartialEq, Eq, Hash)]
pub struct Span {
    /// The first offset.
    pub start: usize,
    /// The offset after the last one.
    pub end: usize,
}

/// A match of a pattern. It never starts after its end.
///
/// Contracts see it as a match of the definitions.
#[derive(Clone, Copy, Debug, PartialEq, Eq, Hash)]
pub struct Match {
    pattern: PatternID,
    span: Span,
}

impl Model for Match {
    ghost use Rattle.std.specs.Prelude.{◌≤◌};
    ghost use Rattle.rx_spec.specs.Queries.{Match as FoundMatch};

    ghost Value = { FoundMatch };

    ghost view = { λ m. record { pattern = m.pattern; start = m.span.start; end = m.span.end } };

    ghost invariant = { λ m. m.span.start ≤ m.span.end };

    ghost inverse = { λ v. record { pattern = v.pattern; span = record { start = v.start; end = v.end } } };
}

impl Match {
    /// A match over a span whose start is at most its end.
    pub fn new(pattern: PatternID, span: Span) -> Match
        requires { span.start ≤ span.end }
        ensures { result ≡ record { pattern = pattern; start = span.start; end = span.end } }
    {
        Match { pattern, span }
    }

    /// The pattern.
    pub fn pattern(&self) -> PatternID
        ensures { result ≡ self.now.pattern }
    {
        self.pattern
    }

    /// Where the match starts.
    pub fn start(&self) -> usize
        ensures value { result ≡ self.now.start }
        ensures ordered { self.now.start ≤ self.now.end }
    {
        self.span.start
    }

    /// Where the match ends.
    pub fn end(&self) -> usize
        ensures value { result ≡ self.now.end }
        ensures ordered { self.now.start ≤ self.now.end }
    {
        self.span.end
    }

    /// From where to where.
    pub fn span(&self) -> Span
        ensures value { result ≡ record { start = self.now.start; end = self.now.end } }
        ensures ordered { self.now.start ≤ self.now.end }
    {
        self.span
    }

    /// Whether it has no byte.
    pub fn is_empty(&self) -> bool
        ensures value { IsTrue result ↔ (self.now.start ≡ self.now.end) }
        ensures ordered { self.now.start ≤ self.now.end }
    {
        self.span.start == self.span.end
    }
}

/// One side of a match: where it ends, or in a search in reverse where it starts.
///
/// Contracts see it as a half match of the definitions.
#[derive(Clone, Copy, Debug, PartialEq, Eq, Hash)]
pub struct HalfMatch {
    pattern: PatternID,
    offset: usize,
}

impl Model for HalfMatch {
    ghost use Rattle.rx_spec.specs.Queries.{HalfMatch as FoundHalf};

    ghost Value = { FoundHalf };

    ghost view = { λ m. record { pattern = m.pattern; offset = m.offset } };

    ghost inverse = { λ v. record { pattern = v.pattern; offset = v.offset } };
}

impl HalfMatch {
    /// One side of a match.
    pub fn new(pattern: PatternID, offset: usize) -> HalfMatch
        ensures { result ≡ record { pattern = pattern; offset = offset } }
    {
        HalfMatch { pattern, offset }
    }

    /// The pattern.
    pub fn pattern(&self) -> PatternID
        ensures { result ≡ self.now.pattern }
    {
        self.pattern
    }

    /// The offset.
    pub fn offset(&self) -> usize
        ensures { result ≡ self.now.offset }
    {
        self.offset
    }
}

/// Where a match may begin.
#[derive(Clone, Copy, Debug, PartialEq, Eq)]
pub enum Anchored {
    /// Anywhere in the span.
    No,
    /// At the span's start.
    Yes,
    /// At the span's start, and of this pattern alone.
    Pattern(PatternID),
}

impl Anchored {
    /// Whether a match begins at the span's start only.
    pub fn is_anchored(&self) -> bool
        ensures { result ≡ is_anchored (mode_of self.now) }
    {
        !matches!(self, Anchored::No)
    }

    /// The pattern that is named.
    pub fn pattern(&self) -> Option<PatternID>
        ensures { result ≡ named_pattern (mode_of self.now) }
    {
        match self {
            Anchored::Pattern(pattern) => Some(*pattern),
            Anchored::No | Anchored::Yes => None,
        }
    }
}
