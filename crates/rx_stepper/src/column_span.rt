//! The columns that a row reads, as a range.

use rx_base::StateID;

/// The range of a row's columns among those of all rows, and the row that follows.
#[derive(Clone, Copy)]
pub(crate) struct ColumnSpan {
    pub(crate) start: usize,
    pub(crate) stop: usize,
    pub(crate) next: StateID,
}
