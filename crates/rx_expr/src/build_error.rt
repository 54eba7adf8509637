//! Why a build fails.
//!
//! A [`BuildError`] has a kind. Each kind but `Memory` names a cause of the definitions (`specs/Refusals.antt`), and
//! each function that returns one says in its contract that this cause holds.
ghost use Rattle.std.specs.Prelude.{◌≡◌};
ghost use Rattle.rx_expr.specs.Refusals.{is_size_limit};

use crate::thompson;
use std::alloc::AllocError;
use thiserror::Error;

/// Why a build fails.
#[derive(Clone, Debug, Drop, Error)]
#[error("{kind}")]
pub struct BuildError {
    /// The reason.
    pub kind: BuildErrorKind,
}

/// The causes for which a build fails.
#[derive(Clone, Debug, Drop, Error)]
pub enum BuildErrorKind {
    /// The NFA has too many patterns or states, or passes its size limit. If the NFA runs out of memory, the kind is
    /// [`BuildErrorKind::Memory`].
    #[error("error building NFA")]
    NFA(thompson::BuildError),
    /// An expression has a Unicode word assertion, and some byte from 0x80 on isn't a quit byte.
    #[error("unsupported regex feature for DFAs: cannot build DFAs for regexes with Unicode word boundaries; \
             switch to ASCII word boundaries, or heuristically enable Unicode word boundaries or use a different \
             regex engine")]
    Unsupported,
    /// The table needs more state ids than there are.
    #[error("number of DFA states exceeds limit of 2147483647")]
    TooManyStates,
    /// The pattern lists of all match states are together longer than the greatest id.
    #[error("compiling DFA with total patterns in all match states exceeds limit of 2147483647")]
    TooManyMatchPatternIDs,
    /// The table would take more bytes than the limit.
    #[error("DFA exceeded size limit of {limit} during determinization")]
    DFAExceededSizeLimit {
        /// The limit, in bytes.
        limit: usize,
    },
    /// The construction's states would take more bytes than the limit.
    #[error("determinization exceeded size limit of {limit}")]
    DeterminizeExceededSizeLimit {
        /// The limit, in bytes.
        limit: usize,
    },
    /// Memory ran out.
    #[error("out of memory")]
    Memory,
}

impl BuildError {
    /// The reason.
    pub fn kind(&self) -> &BuildErrorKind
        ensures { result.now ≡ self.now.kind }
    {
        &self.kind
    }

    /// Whether the build failed because something is too large: too many states, too long pattern lists, or a size
    /// limit of the table or of its construction.
    pub fn is_size_limit_exceeded(&self) -> bool
        ensures { result ≡ is_size_limit self.now.kind }
    {
        matches!(
            self.kind,
            BuildErrorKind::TooManyStates
                | BuildErrorKind::TooManyMatchPatternIDs
                | BuildErrorKind::DFAExceededSizeLimit { .. }
                | BuildErrorKind::DeterminizeExceededSizeLimit { .. }
        )
    }
}

impl From<BuildErrorKind> for BuildError {
    ghost from_gives = { λ kind made. made ≡ record { kind = kind } };

    fn from(kind: BuildErrorKind) -> BuildError {
        BuildError { kind }
    }
}

impl From<thompson::BuildError> for BuildError {
    ghost use Rattle.rx_expr.specs.Refusals.{refused_nfa};

    ghost from_gives = { λ error made. made ≡ refused_nfa error };

    fn from(error: thompson::BuildError) -> BuildError {
        let kind = match error {
            thompson::BuildError::Memory => BuildErrorKind::Memory,
            error => BuildErrorKind::NFA(error),
        };
        BuildError { kind }
    }
}

impl From<AllocError> for BuildError {
    ghost use Rattle.rx_expr.specs.declared.build_error.BuildErrorKind.TheVariants.{Memory};

    ghost from_gives = { λ _ made. made ≡ record { kind = Memory } };

    fn from(_error: AllocError) -> BuildError {
        BuildError {
            kind: BuildErrorKind::Memory,
        }
    }
}
