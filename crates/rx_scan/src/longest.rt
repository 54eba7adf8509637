//! Finds the longest match that begins at a place, in one walk.

ghost use Rattle.std.specs.Prelude.{◌≡◌, ℕ, ◌<◌, ◌≤◌, List, length, true, Ok, IfOk, IfSome};
ghost use Rattle.rx_spec.specs.Bytes.{AreBytes};
ghost use Rattle.rx_spec.specs.Ids.{row_of};
ghost use Rattle.rx_spec.specs.Tables.{is_match};
ghost use Rattle.rx_spec.specs.declared.Direction.TheVariants.{Forward};
ghost use Rattle.rx_search.specs.Labels.{patterns_of};
ghost use Rattle.rx_search.specs.Starts.{IsId, IsStart};
ghost use Rattle.rx_meaning.specs.AllMatches.{query_at, told_at};
ghost use Rattle.rx_scan.specs.Starts.{AreStarts};
ghost use Rattle.rx_scan.specs.Tokens.{longest_of};
ghost use Rattle.rx_scan.specs.Walks.{IsWalk, LastMet, IsLowest};

use crate::starts::Starts;
use rx_base::{HalfMatch, MatchError, PatternID, StateID};
use rx_search::Automaton;
use rx_stream::skip;

/// The last match state of a walk, and the offset at which its matches end. If the offset is where the walk begins, the
/// walk met no match that isn't empty, and the row has no meaning.
#[derive(Clone, Copy)]
struct MetRow {
    row: StateID,
    offset: usize,
}

/// A walk so far: its state, the offset of the byte that it reads next, and its last match state.
#[derive(Clone, Copy)]
struct Walk {
    row: StateID,
    at: usize,
    last: MetRow,
}

/// The longest match that begins at a place of a text and isn't empty, of the lowest pattern.
#[inline]
pub(crate) fn longest<A: Automaton>(
    table: &A,
    text: &[u8],
    from: usize,
    starts: &mut Starts,
) -> Result<Option<HalfMatch>, MatchError>
    requires sound { A.IsSound table.now }
    requires more { from < length text.now }
    requires starts { AreStarts (A.table table.now) (A.ids table.now) starts.old }
    ensures starts { AreStarts (A.table table.now) (A.ids table.now) starts.new }
    ensures value { result ≡ longest_of from (told_at (A.table table.now) text.now from) }
    ensures bytes { AreBytes text.now }
    ensures within { IfOk result (λ found. IfSome found (λ m. (from < m.offset) × (m.offset ≤ length text.now))) }
{
    let start = match starts.at(table, text, from) {
        Ok(start) => start,
        Err(error) => return Err(error),
    };
    match last_met(table, text, from, start) {
        Ok(met) => {
            if met.offset == from {
                return Ok(None);
            }
            Ok(Some(HalfMatch::new(lowest(table, met.row), met.offset)))
        }
        Err(error) => Err(error),
    }
}

/// The last match state of the walk from a place of a text and a start state.
#[inline(always)]
fn last_met<A: Automaton>(
    table: &A,
    text: &[u8],
    from: usize,
    start: StateID,
) -> Result<MetRow, MatchError>
    requires sound { A.IsSound table.now }
    requires more { from < length text.now }
    requires is_id { IsId (A.ids table.now) start }
    requires is_start { IsStart (A.table table.now) Forward (query_at text.now from)
        (row_of (A.ids table.now) start) }
    ensures { LastMet (A.table table.now) (A.ids table.now) from (length text.now)
        (told_at (A.table table.now) text.now from) result }
{
    let last = MetRow {
        row: start,
        offset: from,
    };
    let mut walk = Walk {
        row: start,
        at: from,
        last,
    };
    'rows: loop {
        let ahead = go_on(table, text, walk);
        if ahead.at == text.len() {
            return Ok(last_at_end(table, ahead));
        }
        let byte = text[ahead.at];
        let row = table.next_state(ahead.row, byte);
        if is_match_row(table, row) {
            // the bytes that are skipped lead the row to itself, and each ends a match
            let at = skip(table, row, text, ahead.at + 1);
            let last = MetRow {
                row,
                offset: at - 1,
            };
            walk = Walk { row, at, last };
            continue;
        }
        if table.is_quit_state(row) {
            return Err(MatchError::quit(byte, ahead.at));
        }
        if table.is_dead_state(row) {
            return Ok(ahead.last);
        }
        let at = skip(table, row, text, ahead.at + 1);
        let last = ahead.last;
        walk = Walk { row, at, last };
    }
}

/// Walks to the end of the text, or up to a byte that leads to an accelerated, a dead or the quit state. Most states of
/// a lexer are match states and none of these, and this loop calls no function.
#[inline(always)]
fn go_on<A: Automaton>(table: &A, text: &[u8], walk: Walk) -> Walk
    requires sound { A.IsSound table.now }
    requires is_id { IsId (A.ids table.now) walk.row }
    requires within { walk.at ≤ length text.now }
    ensures is_id { IsId (A.ids table.now) result.row }
    ensures low { walk.at ≤ result.at }
    ensures high { result.at ≤ length text.now }
    ensures walk { (p : ℕ) → IsWalk (A.table table.now) (A.ids table.now) text.now p walk
        → IsWalk (A.table table.now) (A.ids table.now) text.now p result }
{
    let mut row = walk.row;
    let mut at = walk.at;
    let mut last = walk.last;
    'bytes: while at != text.len() {
        let next = table.next_state(row, text[at]);
        if is_match_row(table, next) {
            if table.is_accel_state(next) {
                return Walk { row, at, last };
            }
            last = MetRow {
                row: next,
                offset: at,
            };
        } else if table.is_special_state(next) {
            return Walk { row, at, last };
        }
        row = next;
        at += 1;
    }
    Walk { row, at, last }
}

/// The last match state of a walk at the end of the text, after the step on the end of input.
#[inline(always)]
fn last_at_end<A: Automaton>(table: &A, walk: Walk) -> MetRow
    requires sound { A.IsSound table.now }
    requires is_id { IsId (A.ids table.now) walk.row }
    ensures { (text : List ℕ) (p : ℕ) → p < length text → walk.at ≡ length text
        → IsWalk (A.table table.now) (A.ids table.now) text p walk
        → LastMet (A.table table.now) (A.ids table.now) p (length text) (told_at (A.table table.now) text p)
        (Ok result) }
{
    let row = table.next_eoi_state(walk.row);
    let at = walk.at;
    if is_match_row(table, row) {
        return MetRow { row, offset: at };
    }
    walk.last
}

/// Whether a state is a match state. A function of its own, so that LLVM simplifies it before it inlines it, and the
/// loop of the walk copies no states.
#[inline]
fn is_match_row<A: Automaton>(table: &A, row: StateID) -> bool
    requires { IsId (A.ids table.now) row }
    ensures { result ≡ is_match (A.table table.now) (row_of (A.ids table.now) row) }
{
    table.is_match_state(row)
}

/// The lowest pattern of a match state.
#[inline(always)]
fn lowest<A: Automaton>(table: &A, row: StateID) -> PatternID
    requires sound { A.IsSound table.now }
    requires is_id { IsId (A.ids table.now) row }
    requires is_match { is_match (A.table table.now) (row_of (A.ids table.now) row) ≡ true }
    ensures { IsLowest (patterns_of (A.table table.now) (row_of (A.ids table.now) row)) result }
{
    let len = table.match_len(row);
    let mut lowest = table.match_pattern(row, 0);
    let mut i = 1;
    'patterns: while i < len {
        let pattern = table.match_pattern(row, i);
        if pattern.as_usize() < lowest.as_usize() {
            lowest = pattern;
        }
        i += 1;
    }
    lowest
}
