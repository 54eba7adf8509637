//! Why a search fails.

use rx_base::Anchored;
use rx_build::BuildError;
use thiserror::Error;

/// Why [`crate::compile_and_find`] fails.
#[derive(Clone, Debug, Drop, Error)]
pub enum FindFault {
    /// A build is refused. Its kind is never `Memory`.
    #[error("{0}")]
    Build(BuildError),
    /// The forward search read a quit byte, or one stands right before the span.
    #[error("quit at the byte {byte:#04x} at {offset}")]
    Quit {
        /// The byte.
        byte: u8,
        /// Its offset in the haystack.
        offset: usize,
    },
    /// The plan has no start states for the mode of the search.
    #[error("the mode {mode:?} is not supported")]
    Unsupported {
        /// The mode.
        mode: Anchored,
    },
    /// Memory ran out.
    #[error("out of memory")]
    Memory,
}
