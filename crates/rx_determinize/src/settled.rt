//! The settings of a determinization.

use rx_base::{ByteSet, MatchKind};

/// How an NFA is determinized. No setting is left out.
#[derive(Clone, Copy, Debug)]
pub struct Settled {
    /// Which matches the table reports.
    pub match_kind: MatchKind,
    /// The quit bytes.
    pub quit: ByteSet,
    /// The most bytes that the table may take. `None` is no limit.
    pub dfa_size_limit: Option<usize>,
    /// The most bytes that the construction's states may take. `None` is no limit.
    pub determinize_size_limit: Option<usize>,
}
