//! Why a search doesn't start.

ghost use Rattle.std.specs.Prelude.{◌≡◌};
ghost use Rattle.rx_spec.specs.HalfSearches.{match_error, beside_offset};
ghost use Rattle.rx_base.specs.Input.{query_of};
ghost use Rattle.rx_search.specs.Starts.{refusal_of};

use rx_base::{Anchored, Direction, Input, MatchError};

/// Why there is no row in which a search starts.
#[derive(Clone, Copy, Debug, PartialEq, Eq, thiserror::Error)]
pub enum StartError {
    /// The byte beside the span is a quit byte.
    #[error("quit search before it started after observing byte {byte}")]
    Quit {
        /// The byte.
        byte: u8,
    },
    /// There are no starts for this mode.
    #[error("searches in the mode {mode:?} are not supported")]
    UnsupportedAnchored {
        /// The mode.
        mode: Anchored,
    },
}

impl StartError {
    /// The same as an error of the search of an input, which tells where a quit byte stands.
    pub(crate) fn of_search(self, input: &Input<'_>, direction: Direction) -> MatchError
        ensures { result ≡ match_error direction (query_of input.now) (refusal_of self) }
    {
        match self {
            StartError::Quit { byte } => {
                let offset = match direction {
                    Direction::Forward => input.start().saturating_sub(1),
                    Direction::Reverse => input.end(),
                };
                MatchError::quit(byte, offset)
            }
            StartError::UnsupportedAnchored { mode } => MatchError::unsupported_anchored(mode),
        }
    }
}
