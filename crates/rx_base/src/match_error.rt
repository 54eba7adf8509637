//! Why a search has no answer.

ghost use Rattle.std.specs.Prelude.{◌≡◌};
ghost use Rattle.rx_spec.specs.Queries.{MatchError as SearchError};
ghost use Rattle.rx_base.specs.Search.{mode_of};

use crate::{Anchored, HalfMatch};
use std::marker::Model;

/// Why a search has no answer.
///
/// Contracts see it as an error of the definitions.
#[derive(Clone, Debug, Drop, PartialEq, Eq, thiserror::Error)]
#[error("{kind}")]
pub struct MatchError {
    kind: MatchErrorKind,
}

impl Model for MatchError {
    ghost use Rattle.rx_spec.specs.Queries.{MatchError as SearchError};
    ghost use Rattle.rx_base.specs.MatchError.{error_of, kind_of};
    ghost use Rattle.rx_base.specs.Inverses.{error-inverse};

    ghost Value = { SearchError };

    ghost view = { λ e. error_of e.kind };

    ghost inverse = { λ v. record { kind = kind_of v } };

    ghost inverse_ok = { λ e h. error-inverse e };
}

impl MatchError {
    ghost use Rattle.rx_base.specs.MatchError.{error_of};

    /// The error of a kind.
    pub fn new(kind: MatchErrorKind) -> MatchError
        ensures { result ≡ error_of kind }
    {
        MatchError { kind }
    }

    /// The kind.
    pub fn kind(&self) -> &MatchErrorKind
        ensures { error_of result.now ≡ self.now }
    {
        &self.kind
    }

    /// A quit byte was read at an offset.
    pub fn quit(byte: u8, offset: usize) -> MatchError
        ensures { result ≡ SearchError.Quit byte offset }
    {
        MatchError::new(MatchErrorKind::Quit { byte, offset })
    }

    /// There are no starts for a mode.
    pub fn unsupported_anchored(mode: Anchored) -> MatchError
        ensures { result ≡ SearchError.UnsupportedAnchored (mode_of mode) }
    {
        MatchError::new(MatchErrorKind::UnsupportedAnchored { mode })
    }
}

/// The kinds of errors of searches.
#[derive(Clone, Copy, Debug, PartialEq, Eq, thiserror::Error)]
pub enum MatchErrorKind {
    /// A quit byte was read.
    #[error("quit search after observing byte {byte} at offset {offset}")]
    Quit {
        /// The byte.
        byte: u8,
        /// Where it stands in the haystack.
        offset: usize,
    },
    /// There are no starts for this mode.
    #[error("searches in the mode {mode:?} are not supported")]
    UnsupportedAnchored {
        /// The mode.
        mode: Anchored,
    },
    /// Two half searches are of one match only where the second tells a start of the pattern of which
    /// the first told the end.
    #[error("no start for the end {forward:?}, but {reverse:?}")]
    PairMismatch {
        /// What the forward search told.
        forward: HalfMatch,
        /// What the reverse search told.
        reverse: Option<HalfMatch>,
    },
}
