//! Why an NFA isn't built.

use thiserror::Error;

/// Why an NFA isn't built. The first three are returned before any memory is taken.
#[derive(Clone, Debug, Drop, Error)]
pub enum BuildError {
    /// There are more patterns than pattern ids.
    #[error("{given} patterns are more than there are ids")]
    TooManyPatterns {
        /// The number of patterns.
        given: usize,
    },
    /// There would be more states than state ids.
    #[error("{given} rows are more than there are ids")]
    TooManyStates {
        /// The number of states, capped at 2^31.
        given: u64,
    },
    /// The states would take more bytes than the limit, at 40 bytes a state.
    #[error("the rows take more than {limit} bytes")]
    ExceededSizeLimit {
        /// The limit in bytes.
        limit: usize,
    },
    /// Memory ran out.
    #[error("out of memory")]
    Memory,
}
