//! Pairs of tables that search for one literal and for nothing else.

ghost use Rattle.std.specs.Prelude.{◌≡◌, ◌<◌, ◌&&◌, length, IfOk, IfSome, IsTrue, Some};
ghost use Rattle.rx_spec.specs.Ids.{row_of};
ghost use Rattle.rx_spec.specs.Splits.{skips_splits};
ghost use Rattle.rx_base.specs.Search.{mode_of};
ghost use Rattle.rx_search.specs.Starts.{IsId};
ghost use Rattle.rx_prefilter.specs.OnlyLiterals.{LeadsBack, LeadsOnlyTo, SearchesFor, StartsAt, StartsBeside, Tells};

use crate::literal::{literal_from, tells_nothing};
use rx_base::start::Config;
use rx_base::{Anchored, PatternID, StateID};
use rx_pair::Regex;
use rx_search::Automaton;
use std::alloc::{AllocError, Global};

/// A literal, and the pattern that it is.
#[derive(Drop)]
pub struct OnlyLiteral {
    /// Its bytes, at least one.
    pub bytes: Vec<u8>,
    /// The pattern that each match has.
    pub pattern: PatternID,
}

/// The literal for which a pair of tables searches, if it searches for one literal of 2 to 32 bytes and for nothing
/// else.
///
/// `Some` is certain: each search of the pair that isn't anchored, over any haystack, returns where this literal first
/// lies in the span. `None` means nothing.
pub fn only_literal<A: Automaton>(
    alloc: Global,
    regex: &Regex<A>,
) -> Result<Option<OnlyLiteral>, AllocError>
    ensures searches { IfOk result (λ found. IfSome found (λ only.
        SearchesFor (A.table regex.now.forward) (A.table regex.now.reverse) only.bytes.items only.pattern)) }
    ensures some { IfOk result (λ found. IfSome found (λ only. 0 < length only.bytes.items)) }
{
    let (forward, reverse) = (regex.forward(), regex.reverse());
    if skips_splits(forward) || skips_splits(reverse) || forward.is_always_start_anchored() {
        return Ok(None);
    }
    let Some(first) = only_start(forward, &Anchored::No) else {
        return Ok(None);
    };
    let Some(last) = only_start(reverse, &Anchored::Yes) else {
        return Ok(None);
    };
    let Some(literal) = literal_from(alloc, forward, first)? else {
        return Ok(None);
    };
    let end = literal.rows[literal.bytes.len()];
    let Some(before) = row_before(reverse, last, &literal.bytes) else {
        return Ok(None);
    };
    let Some(pattern) = told_at(forward, end) else {
        return Ok(None);
    };
    let Some(other) = told_at(reverse, before) else {
        return Ok(None);
    };
    if other != pattern {
        return Ok(None);
    }
    Ok(Some(OnlyLiteral {
        bytes: literal.bytes,
        pattern,
    }))
}

/// Whether a search passes over matches that split a character.
fn skips_splits<A: Automaton>(dfa: &A) -> bool
    ensures { result ≡ skips_splits (A.table dfa.now) }
{
    dfa.has_empty() && dfa.is_utf8()
}

/// The row in which each search of a mode starts, whatever stands beside its span, if there is one.
fn only_start<A: Automaton>(dfa: &A, mode: &Anchored) -> Option<StateID>
    ensures { IfSome result (λ id. IsId (A.ids dfa.now) id
        × StartsAt (A.table dfa.now) (mode_of mode.now) (row_of (A.ids dfa.now) id)) }
{
    let Ok(start) = dfa.start_state(&Config::new().anchored(*mode)) else {
        return None;
    };
    for byte in 0..256u16 {
        if !starts_at(dfa, mode, byte as u8, start) {
            return None;
        }
    }
    Some(start)
}

/// Whether a search of a mode starts at a row beside a byte.
fn starts_at<A: Automaton>(dfa: &A, mode: &Anchored, byte: u8, row: StateID) -> bool
    ensures { IsTrue result
        → StartsBeside (A.table dfa.now) (mode_of mode.now) (Some byte) (row_of (A.ids dfa.now) row) }
{
    let config = Config::new().anchored(*mode).look_behind(Some(byte));
    match dfa.start_state(&config) {
        Ok(start) => start == row,
        Err(_) => false,
    }
}

/// The row to which a walk comes from a row behind a literal, in reverse over the literal, if it tells nothing there.
fn row_before<A: Automaton>(dfa: &A, start: StateID, literal: &[u8]) -> Option<StateID>
    requires sound { A.IsSound dfa.now }
    requires is_id { IsId (A.ids dfa.now) start }
    ensures { IfSome result (λ id. IsId (A.ids dfa.now) id
        × LeadsBack (A.table dfa.now) literal.now (row_of (A.ids dfa.now) start) 0 (row_of (A.ids dfa.now) id)) }
{
    let mut row = start;
    let mut left = literal.len();
    'bytes: while left > 0 {
        left -= 1;
        row = dfa.next_state(row, literal[left]);
        if !tells_nothing(dfa, row) || dfa.is_dead_state(row) {
            return None;
        }
    }
    Some(row)
}

/// The pattern of the one match that a walk tells at a row, whatever it reads. `None` if there may be another, or none.
fn told_at<A: Automaton>(dfa: &A, id: StateID) -> Option<PatternID>
    requires sound { A.IsSound dfa.now }
    requires is_id { IsId (A.ids dfa.now) id }
    ensures { IfSome result (Tells (A.table dfa.now) (row_of (A.ids dfa.now) id)) }
{
    let told = dfa.next_eoi_state(id);
    if !dfa.is_match_state(told) || !leads_only_to(dfa, id, told) {
        return None;
    }
    let behind = dfa.next_eoi_state(told);
    if !dfa.is_dead_state(behind) || !leads_only_to(dfa, told, behind) {
        return None;
    }
    Some(dfa.match_pattern(told, 0))
}

/// Whether every byte and the end of input lead from a row to another.
fn leads_only_to<A: Automaton>(dfa: &A, id: StateID, to: StateID) -> bool
    requires is_id { IsId (A.ids dfa.now) id }
    requires to_is_id { IsId (A.ids dfa.now) to }
    ensures { IsTrue result
        → LeadsOnlyTo (A.table dfa.now) (row_of (A.ids dfa.now) id) (row_of (A.ids dfa.now) to) }
{
    for byte in 0..256u16 {
        if dfa.next_state(id, byte as u8) != to {
            return false;
        }
    }
    dfa.next_eoi_state(id) == to
}
