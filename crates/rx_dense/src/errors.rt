//! Why a builder's call is refused.

use std::alloc::AllocError;
use thiserror::Error;

/// Why a table gets no further row. It is then as before.
#[derive(Clone, Copy, Debug, PartialEq, Eq, Error)]
pub enum AddError {
    /// The row's id would be above the greatest id.
    #[error("the table has no further ids")]
    TooManyStates,
    /// Memory ran out.
    #[error("out of memory")]
    Memory,
}

/// Why the patterns of the match rows aren't set. The table is then as before.
#[derive(Clone, Copy, Debug, PartialEq, Eq, Error)]
pub enum PatternMapError {
    /// All lists together are longer than the greatest id of a pattern.
    #[error("the lists of patterns are too long")]
    TooMany,
    /// Memory ran out.
    #[error("out of memory")]
    Memory,
}

impl From<AllocError> for PatternMapError {
    ghost use Rattle.std.specs.Prelude.{◌≡◌};
    ghost use Rattle.rx_dense.specs.declared.errors.PatternMapError.TheVariants.{Memory};

    ghost from_gives = { λ _ e. e ≡ Memory };

    fn from(_error: AllocError) -> PatternMapError {
        PatternMapError::Memory
    }
}
