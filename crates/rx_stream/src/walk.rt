//! Walks over a piece, up to the next event.

ghost use Rattle.std.specs.Prelude.{◌≤◌, MatchOption, length};
ghost use Rattle.rx_spec.specs.Ids.{row_of};
ghost use Rattle.rx_search.specs.Starts.{IsId};
ghost use Rattle.rx_stream.specs.Pieces.{HaltsAt, IsMetBy, IsPassedBy, IsQuietWalk};

use crate::skips::skip;
use rx_base::StateID;
use rx_search::{Automaton, Passed, pass_on};

/// Where a walk over a piece stops, and in which state.
#[derive(Clone, Copy, Debug)]
pub(crate) enum Halt {
    /// The byte at a place led to a match state.
    Match { row: StateID, at: usize },
    /// The byte at a place led to the quit state.
    Quit { row: StateID, byte: u8, at: usize },
    /// The piece has no event: it was read to its end, or the state is dead.
    End { row: StateID },
}

/// From how many bytes on a piece is read at several places at once.
const FAR: usize = 8192;

/// How many bytes are read one by one at first, and again after each special state.
const ALONE: usize = 2048;

/// Walks over a piece from a state and a place.
#[inline(always)]
pub(crate) fn walk<A: Automaton>(table: &A, start: StateID, piece: &[u8], from: usize) -> Halt
    requires sound { A.IsSound table.now }
    requires is_id { IsId (A.ids table.now) start }
    requires within { from ≤ length piece.now }
    ensures { HaltsAt (A.table table.now) (A.ids table.now) (row_of (A.ids table.now) start) piece.now from result }
{
    if !table.prefers_several_places() || piece.len() - from < FAR {
        return walk_near(table, start, piece, from);
    }
    walk_far(table, start, piece, from)
}

/// Walks at one place: over a short piece, or over any piece where a table doesn't prefer several places.
#[inline(always)]
fn walk_near<A: Automaton>(table: &A, start: StateID, piece: &[u8], from: usize) -> Halt
    requires sound { A.IsSound table.now }
    requires is_id { IsId (A.ids table.now) start }
    requires within { from ≤ length piece.now }
    ensures { HaltsAt (A.table table.now) (A.ids table.now) (row_of (A.ids table.now) start) piece.now from result }
{
    let mut row = start;
    let mut at = skip_at_start(table, row, piece, from);
    'bytes: while at < piece.len() {
        let byte = piece[at];
        row = table.next_state(row, byte);
        if !table.is_special_state(row) {
            at += 1;
            continue;
        }
        if let Some(halt) = met(table, row, byte, at) {
            return halt;
        }
        at = skip(table, row, piece, at + 1);
    }
    Halt::End { row }
}

/// Walks over a long piece. Where no byte has led to a special state for a while, it reads at several places.
#[inline(never)]
fn walk_far<A: Automaton>(table: &A, start: StateID, piece: &[u8], from: usize) -> Halt
    requires sound { A.IsSound table.now }
    requires is_id { IsId (A.ids table.now) start }
    requires within { from ≤ length piece.now }
    ensures { HaltsAt (A.table table.now) (A.ids table.now) (row_of (A.ids table.now) start) piece.now from result }
{
    let mut row = start;
    let mut at = skip_at_start(table, row, piece, from);
    'passes: while at < piece.len() {
        let begun = at;
        let far = begun + ALONE.min(piece.len() - begun);
        'bytes: while at < far {
            let byte = piece[at];
            row = table.next_state(row, byte);
            if !table.is_special_state(row) {
                at += 1;
                continue;
            }
            if let Some(halt) = met(table, row, byte, at) {
                return halt;
            }
            at = skip(table, row, piece, at + 1);
            continue 'passes;
        }
        let mut passed = Passed { row, count: 0 };
        pass_on(table, &mut passed, piece, at, piece.len());
        row = passed.row;
        at += passed.count;
    }
    Halt::End { row }
}

/// Where a walk stops whose byte at a place led to a special state, or `None` if it goes on.
#[inline(always)]
fn met<A: Automaton>(table: &A, row: StateID, byte: u8, at: usize) -> Option<Halt>
    requires { IsId (A.ids table.now) row }
    ensures { MatchOption result
        (IsPassedBy (A.table table.now) (row_of (A.ids table.now) row))
        (IsMetBy (A.table table.now) (A.ids table.now) row byte at) }
{
    if table.is_match_state(row) {
        return Some(Halt::Match { row, at });
    }
    if table.is_quit_state(row) {
        return Some(Halt::Quit { row, byte, at });
    }
    if table.is_dead_state(row) {
        return Some(Halt::End { row });
    }
    None
}

/// Skips before the first byte is read. A match state isn't skipped from: it reports a match again after each byte that
/// leads it to itself.
#[inline(always)]
fn skip_at_start<A: Automaton>(table: &A, row: StateID, piece: &[u8], from: usize) -> usize
    requires sound { A.IsSound table.now }
    requires is_id { IsId (A.ids table.now) row }
    requires within { from ≤ length piece.now }
    ensures { IsQuietWalk (A.table table.now) (row_of (A.ids table.now) row) piece.now from
        (row_of (A.ids table.now) row) result }
{
    if table.is_match_state(row) {
        return from;
    }
    skip(table, row, piece, from)
}
