//! The tables that a plan has for a list of expressions.

ghost use Rattle.std.specs.Prelude.{◌≡◌};
ghost use Rattle.rx_regex.specs.PlanTables.{direction_of, match_kind_of};

use rx_base::{Direction, MatchKind};

/// A table of a plan. The first two are searched together; the third is for scanners and streams.
#[derive(Clone, Copy, Debug, PartialEq, Eq)]
pub enum PlanTable {
    /// Searched forward; reports the preferred match.
    Forward,
    /// Searched in reverse; reports all matches.
    Reverse,
    /// Searched forward; reports all matches.
    All,
}

impl PlanTable {
    /// The direction in which it is searched.
    pub(crate) fn direction(self) -> Direction
        ensures { result ≡ direction_of self }
    {
        match self {
            PlanTable::Forward | PlanTable::All => Direction::Forward,
            PlanTable::Reverse => Direction::Reverse,
        }
    }

    /// The match kind in the settings of a pair, which are overwritten for the reverse table.
    pub(crate) fn match_kind(self) -> MatchKind
        ensures { result ≡ match_kind_of self }
    {
        match self {
            PlanTable::Forward | PlanTable::Reverse => MatchKind::LeftmostFirst,
            PlanTable::All => MatchKind::All,
        }
    }
}
