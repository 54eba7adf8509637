//! The parts of a table other than the bytes of its states and start entries.

use rx_base::{ByteClasses, ByteSet, Start, StartKind, StateID};
use rx_dense::{Flags, Special};
use rx_wire::Order;

/// The parts of a sparse table other than the bytes of its states and start entries.
#[derive(Clone, Copy, Debug)]
pub struct Parts {
    /// The byte order of the states and start entries.
    pub order: Order,
    /// The flags of the patterns.
    pub flags: Flags,
    /// The class of each byte.
    pub classes: ByteClasses,
    /// The number of patterns.
    pub pattern_len: usize,
    /// The number of states.
    pub state_len: usize,
    /// For which modes the table has start states.
    pub start_kind: StartKind,
    /// The start context of each byte.
    pub contexts: [Start; 256],
    /// The number of patterns with start states of their own, if there are such.
    pub start_pattern_len: Option<usize>,
    /// The start state of an unanchored search if it is the same for each byte beside the span.
    pub universal_unanchored: Option<StateID>,
    /// The start state of an anchored search if it is the same for each byte beside the span.
    pub universal_anchored: Option<StateID>,
    /// The special states.
    pub special: Special,
    /// The quit bytes.
    pub quitset: ByteSet,
}
