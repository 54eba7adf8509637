//! A table with one of its rows.

ghost use Rattle.std.specs.Prelude.{◌≡◌, ◌+◌, ◌-◌, ◌^◌, ◌<◌, ◌≤◌, ◌==◌, length, slice_index, true};
ghost use Rattle.std.specs.Prelude.{MatchResult, IsTrue};
ghost use Rattle.rx_spec.specs.Ids.{row_of};
ghost use Rattle.rx_spec.specs.Tables.{is_match};
ghost use Rattle.rx_spec.specs.declared.Direction.TheVariants.{Forward, Reverse};
ghost use Rattle.rx_base.specs.Input.{query_of};
ghost use Rattle.rx_base.specs.Unit.{unit_number};
ghost use Rattle.rx_search.specs.Labels.{is_quit, patterns_of, IsFinal};
ghost use Rattle.rx_search.specs.Passing.{Leads};
ghost use Rattle.rx_search.specs.Starts.{IsId, IsStart, IsRefused};

use crate::Automaton;
use crate::parts::{Passed, pass_on};
use crate::walk::Places;
use rx_base::{Direction, Input, MatchError, Needles, PatternID, StateID, Steps, Tally, Unit};
use std::marker::PhantomData;

/// A sound table with one of its rows, where a walk stands.
///
/// It lends neither the table nor another row, and each transition that it takes is counted on a counter of its
/// own `L`. So a search that has nothing but a cursor is bound by what the counter says.
#[derive(Drop)]
pub struct Cursor<A: Automaton, L> {
    table: A,
    row: StateID,
    ledger: PhantomData<L>,
    ghost sound: { A.IsSound table } by { A.sound_fact table },
    ghost is_id: { IsId (A.ids table) row },
}

impl<A: Automaton, L> Cursor<A, L> {
    /// At the row in which a forward search of an input starts.
    #[inline]
    pub fn forward(table: A, input: &Input<'_>) -> Result<Cursor<A, L>, MatchError>
        requires { A.IsSound table }
        ensures { MatchResult result
            (λ cursor. (cursor.table ≡ table)
            × IsStart (A.table table) Forward (query_of input.now) (row_of (A.ids table) cursor.row))
            (IsRefused (A.table table) Forward (query_of input.now)) }
    {
        match table.start_state_forward(input) {
            Ok(row) => Ok(Cursor::at(table, row)),
            Err(error) => Err(error),
        }
    }

    /// At the row in which a search in reverse of an input starts.
    #[inline]
    pub fn reverse(table: A, input: &Input<'_>) -> Result<Cursor<A, L>, MatchError>
        requires { A.IsSound table }
        ensures { MatchResult result
            (λ cursor. (cursor.table ≡ table)
            × IsStart (A.table table) Reverse (query_of input.now) (row_of (A.ids table) cursor.row))
            (IsRefused (A.table table) Reverse (query_of input.now)) }
    {
        match table.start_state_reverse(input) {
            Ok(row) => Ok(Cursor::at(table, row)),
            Err(error) => Err(error),
        }
    }

    /// At a row.
    #[inline(always)]
    pub(crate) fn at(table: A, row: StateID) -> Cursor<A, L>
        requires sound { A.IsSound table }
        requires is_id { IsId (A.ids table) row }
        ensures table { result.table ≡ table }
        ensures row { result.row ≡ row }
    {
        Cursor {
            table,
            row,
            ledger: PhantomData,
        }
    }

    /// The id of the row.
    #[inline(always)]
    pub(crate) fn row(&self) -> StateID
        ensures { result ≡ self.now.row }
    {
        self.row
    }

    /// Takes the transition on a unit, and counts it.
    #[inline(always)]
    pub fn advance(&mut self, unit: Unit, steps: &mut Steps<L>)
        requires { steps.old < 2 ^ 64 - 1 }
        ensures table { self.new.table ≡ self.old.table }
        ensures row { row_of (A.ids self.old.table) self.new.row
            ≡ (A.table self.old.table).machine.next (row_of (A.ids self.old.table) self.old.row) (unit_number unit) }
        ensures counted { steps.new ≡ steps.old + 1 }
    {
        let row = match unit {
            Unit::Byte(byte) => self.table.next_state(self.row, byte),
            Unit::Eoi => self.table.next_eoi_state(self.row),
        };
        self.row = row;
        steps.tick();
    }

    /// At how many places a walk of the table reads where nothing is counted.
    #[inline(always)]
    pub(crate) fn places(&self) -> Places {
        match self.table.prefers_several_places() {
            true => Places::Several,
            false => Places::One,
        }
    }

    /// Takes the transitions on the bytes from an offset up to the first one that leads to a special row, or to an
    /// end, and counts none of them. Answers how many there are.
    #[inline(always)]
    pub(crate) fn pass(&mut self, haystack: &[u8], from: usize, end: usize) -> usize
        requires begun { from ≤ end }
        requires within { end ≤ length haystack.now }
        ensures table { self.new.table ≡ self.old.table }
        ensures leads { Leads (A.table self.old.table) Forward haystack.now
            (row_of (A.ids self.old.table) self.old.row) from (row_of (A.ids self.old.table) self.new.row) result }
        ensures within { result ≤ end - from }
    {
        let mut passed = Passed {
            row: self.row,
            count: 0,
        };
        pass_on(&self.table, &mut passed, haystack, from, end);
        self.row = passed.row;
        passed.count
    }

    /// Whether a search has more to do at the row than to go on.
    #[inline(always)]
    pub(crate) fn is_special(&self) -> bool
        ensures { result ≡ (A.table self.now.table).is_special (row_of (A.ids self.now.table) self.now.row) }
    {
        self.table.is_special_state(self.row)
    }

    /// Whether the row is dead.
    #[inline(always)]
    pub fn is_dead(&self) -> bool
        ensures { result ≡ (row_of (A.ids self.now.table) self.now.row == 0) }
    {
        self.table.is_dead_state(self.row)
    }

    /// Whether a search ends at the row because of a byte that can't be searched.
    #[inline(always)]
    pub fn is_quit(&self) -> bool
        ensures { result ≡ is_quit (A.table self.now.table) (row_of (A.ids self.now.table) self.now.row) }
    {
        self.table.is_quit_state(self.row)
    }

    /// Whether the row is a match row.
    #[inline(always)]
    pub fn is_match(&self) -> bool
        ensures { result ≡ is_match (A.table self.now.table) (row_of (A.ids self.now.table) self.now.row) }
    {
        self.table.is_match_state(self.row)
    }

    /// Whether the row is accelerated.
    #[inline(always)]
    pub(crate) fn is_accel(&self) -> bool
        ensures { result
            ≡ (A.table self.now.table).is_accelerated (row_of (A.ids self.now.table) self.now.row) }
    {
        self.table.is_accel_state(self.row)
    }

    /// How many patterns the row tells, which must be a match row.
    #[inline(always)]
    pub fn match_len(&self) -> usize
        requires { is_match (A.table self.now.table) (row_of (A.ids self.now.table) self.now.row) ≡ true }
        ensures { result ≡ length (patterns_of (A.table self.now.table) (row_of (A.ids self.now.table) self.now.row)) }
    {
        self.table.match_len(self.row)
    }

    /// One of the patterns of a match row, by its place among them, which is below `match_len`.
    #[inline(always)]
    pub fn pattern(&self, index: usize) -> PatternID
        requires is_match { is_match (A.table self.now.table) (row_of (A.ids self.now.table) self.now.row) ≡ true }
        requires within { index
            < length (patterns_of (A.table self.now.table) (row_of (A.ids self.now.table) self.now.row)) }
        ensures { let row = row_of (A.ids self.now.table) self.now.row in
            result ≡ slice_index (patterns_of (A.table self.now.table) row) index }
    {
        self.table.match_pattern(self.row, index)
    }

    /// Whether the row, which must be a match row, is known to lead to the dead row alone.
    #[inline(always)]
    pub(crate) fn is_final_match(&self) -> bool
        requires { is_match (A.table self.now.table) (row_of (A.ids self.now.table) self.now.row) ≡ true }
        ensures { IsTrue result → IsFinal (A.table self.now.table) (row_of (A.ids self.now.table) self.now.row) }
    {
        self.table.is_final_match(self.row)
    }

    /// The bytes that lead elsewhere from the row where it is accelerated, and else none.
    #[inline(always)]
    pub fn needles(&self) -> Needles
        ensures { result ≡ (A.table self.now.table).needles (row_of (A.ids self.now.table) self.now.row) }
    {
        self.table.accelerator(self.row)
    }
}

/// At the row in which a search of an input starts.
#[inline(always)]
pub(crate) fn start<'a, A: Automaton>(
    dfa: &'a A,
    input: &Input<'_>,
    direction: Direction,
) -> Result<Cursor<&'a A, Tally>, MatchError>
    requires { A.IsSound dfa.now }
    ensures { MatchResult result
        (λ cursor. (cursor.table.now ≡ dfa.now)
        × IsStart (A.table dfa.now) direction (query_of input.now) (row_of (A.ids dfa.now) cursor.row))
        (IsRefused (A.table dfa.now) direction (query_of input.now)) }
{
    match direction {
        Direction::Forward => Cursor::forward(dfa, input),
        Direction::Reverse => Cursor::reverse(dfa, input),
    }
}
