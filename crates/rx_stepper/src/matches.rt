//! The rows that go on, and the patterns that they match.

ghost use Rattle.std.specs.Prelude.{◌≡◌, ◌==◌, ◌++◌, OnOk};
ghost use Rattle.std.specs.List.{list_any};
ghost use Rattle.rx_spec.specs.States.{row_at, cut, to_first_match, is_match_row, pattern_of};
ghost use Rattle.rx_expr.specs.Nfa.{meaning};
ghost use Rattle.rx_stepper.specs.Leads.{without};
ghost use Rattle.rx_stepper.specs.Steps.{goes_on, matches_of, patterns_of};

use crate::closures::Closures;
use crate::thin_row::ThinRow;
use rx_base::{MatchKind, PatternID, StateID};
use std::alloc::AllocError;

impl<'n> Closures<'n> {
    /// The rows that go on: leftmost-first, those up to the first match.
    pub(crate) fn cut<'r>(&self, kind: MatchKind, rows: &'r [StateID]) -> &'r [StateID]
        ensures { result.now ≡ cut kind (meaning self.now.nfa.now).rows rows.now }
    {
        match kind {
            MatchKind::All => rows,
            MatchKind::LeftmostFirst => self.to_first_match(rows),
        }
    }

    /// The rows up to the first match, with that one.
    fn to_first_match<'r>(&self, rows: &'r [StateID]) -> &'r [StateID]
        ensures { result.now ≡ to_first_match (meaning self.now.nfa.now).rows rows.now }
    {
        for (i, id) in rows.iter().enumerate() {
            if self.is_match(*id) {
                return &rows[..i + 1];
            }
        }
        rows
    }

    fn is_match(&self, id: StateID) -> bool
        ensures { result ≡ is_match_row (row_at (meaning self.now.nfa.now).rows id) }
    {
        match self.thin.get(id.as_usize()) {
            Some(ThinRow::Match(..)) => true,
            _ => false,
        }
    }

    /// Whether some row is a match.
    pub(crate) fn has_match(&self, rows: &[StateID]) -> bool
        ensures { result ≡ list_any (λ q. is_match_row (row_at (meaning self.now.nfa.now).rows q)) rows.now }
    {
        rows.iter().any(|id| self.is_match(*id))
    }

    /// Adds the rows that match.
    pub(crate) fn add_matches(
        &self,
        rows: &[StateID],
        matches: &mut Vec<StateID>,
    ) -> Result<(), AllocError>
        ensures { OnOk result (matches.new.items
            ≡ matches.old.items ++ matches_of (meaning self.now.nfa.now).rows rows.now) }
    {
        for id in rows {
            if self.is_match(*id) {
                matches.push(*id)?;
            }
        }
        Ok(())
    }

    /// Adds the patterns that rows match.
    pub(crate) fn add_patterns(
        &self,
        rows: &[StateID],
        label: &mut Vec<PatternID>,
    ) -> Result<(), AllocError>
        ensures { OnOk result (label.new.items
            ≡ label.old.items ++ patterns_of (meaning self.now.nfa.now).rows rows.now) }
    {
        for id in rows {
            self.add_pattern(*id, label)?;
        }
        Ok(())
    }

    /// Adds the patterns that rows match, except those of some other rows.
    pub(crate) fn add_other_patterns(
        &self,
        rows: &[StateID],
        others: &[StateID],
        label: &mut Vec<PatternID>,
    ) -> Result<(), AllocError>
        ensures { OnOk result (label.new.items
            ≡ label.old.items ++ patterns_of (meaning self.now.nfa.now).rows (without others.now rows.now)) }
    {
        for id in rows {
            if !is_among(others, *id) {
                self.add_pattern(*id, label)?;
            }
        }
        Ok(())
    }

    /// Adds the pattern that a row matches.
    fn add_pattern(&self, id: StateID, label: &mut Vec<PatternID>) -> Result<(), AllocError>
        ensures { let pattern = pattern_of (row_at (meaning self.now.nfa.now).rows id) in
            OnOk result (label.new.items ≡ label.old.items ++ pattern) }
    {
        if let Some(ThinRow::Match(pattern)) = self.thin.get(id.as_usize()) {
            label.push(*pattern)?;
        }
        Ok(())
    }
}

/// Whether a row is among some rows.
pub(crate) fn is_among(rows: &[StateID], row: StateID) -> bool
    ensures { result ≡ list_any (λ x. row == x) rows.now }
{
    rows.iter().any(|other| row == *other)
}

/// Whether less preferred rows go on too after these matches. Leftmost-first they don't if there is a match.
pub(crate) fn goes_on(kind: MatchKind, matches: &[StateID]) -> bool
    ensures { result ≡ goes_on kind matches.now }
{
    match kind {
        MatchKind::All => true,
        MatchKind::LeftmostFirst => matches.is_empty(),
    }
}
