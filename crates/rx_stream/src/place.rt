//! The state of a searcher.

ghost use Rattle.std.specs.Prelude.{◌≡◌};
ghost use Rattle.rx_stream.specs.Calls.{closed, is_ended};

use rx_base::StateID;

/// How far the text has come.
#[derive(Clone, Copy, Debug, PartialEq, Eq)]
pub(crate) enum Stage {
    /// More pieces may come.
    Open,
    /// All pieces have come. End of input isn't read yet.
    Closed,
    /// End of input is read.
    Ended,
}

impl Stage {
    /// The stage after the last piece.
    pub(crate) fn closed(self) -> Stage
        ensures { result ≡ closed self }
    {
        match self {
            Stage::Open => Stage::Closed,
            Stage::Closed => Stage::Closed,
            Stage::Ended => Stage::Ended,
        }
    }

    /// Whether end of input is read.
    pub(crate) fn is_ended(self) -> bool
        ensures { result ≡ is_ended self }
    {
        matches!(self, Stage::Ended)
    }
}

/// The state of the table that a searcher has reached, and what it has reported and read.
#[derive(Clone, Copy, Debug)]
pub(crate) struct Place {
    /// The id of the state.
    pub(crate) row: StateID,
    /// The number of the state's patterns that are reported.
    pub(crate) told: usize,
    /// Where the matches of these patterns end.
    pub(crate) offset: usize,
    /// The number of bytes read.
    pub(crate) taken: usize,
    pub(crate) stage: Stage,
}
