//! The checkers: they test evidence, whoever made it, and search for nothing.

ghost use Rattle.std.specs.Prelude.{◌≡◌, ◌≤◌, ◌<◌, ◌↔◌, IsTrue, IfOk, MatchOption, None, Some, Contains, map};
ghost use Rattle.rx_base.specs.Search.{mode_of};
ghost use Rattle.rx_equal.specs.Classes.{Represent};
ghost use Rattle.rx_equal.specs.Evidence.{AreEvidence, RowPair, link_pair};
ghost use Rattle.rx_equal.specs.Pairs.{AreKept, IsPairOf, pairs_of, rows_of};
ghost use Rattle.rx_equal.specs.Partings.{NothingParts};
ghost use Rattle.rx_equal.specs.Places.{HaveNexts, Meet, MeetAll, MeetMode};
ghost use Rattle.rx_base.specs.Unit.{unit_number};
ghost use Rattle.rx_equal.specs.Partings.{IsModeOf, IsParting};

use crate::classes::representatives;
use crate::pairs::{Begin, Pair, Pairs, begin_at, have_equal_labels, next_of};
use crate::places::{beside_at, mode_at, mode_count};
use crate::{Link, Links, Parting, Place, UnitList};
use rx_base::Anchored;
use rx_search::Automaton;
use std::alloc::{AllocError, Global};

/// Whether a place and a word part two tables.
///
/// The mode of the place has to be one of the tables': a pattern's number is at most the greater number of patterns. No
/// memory is taken.
pub fn check_parting<A: Automaton, B: Automaton>(a: &A, b: &B, parting: &Parting) -> bool
    requires sound { A.IsSound a.now }
    requires other_sound { B.IsSound b.now }
    ensures { IsTrue result ↔ IsParting (A.table a.now) (B.table b.now) parting.now.place
        (map unit_number parting.now.word) }
{
    if !is_mode(a, b, parting.place) {
        return false;
    }
    match begin_at(a, b, parting.place) {
        Begin::Refused => false,
        Begin::Apart => true,
        Begin::Rows(start) => {
            let mut pair = start;
            for i in 0..parting.word.len() {
                pair = next_of(a, b, &pair, parting.word.get(i));
            }
            !have_equal_labels(a, b, &pair)
        }
    }
}

/// Whether the mode of a place is one of two tables.
fn is_mode<A: Automaton, B: Automaton>(a: &A, b: &B, place: Place) -> bool
    ensures { IsTrue result ↔ IsModeOf (A.table a.now) (B.table b.now) place.mode }
{
    match place.mode().pattern() {
        None => true,
        Some(pattern) => pattern.as_usize() <= a.pattern_len().max(b.pattern_len()),
    }
}

/// Whether links show that two tables are equal.
///
/// They do if each names a pair of rows, the pairs tell the same, and the pairs of all places and all pairs to which a
/// unit leads from them are among them. Each table has at most 65,536 patterns.
pub fn check_links<A: Automaton, B: Automaton>(
    alloc: Global,
    a: &A,
    b: &B,
    links: &Links,
) -> Result<bool, AllocError>
    requires sound { A.IsSound a.now }
    requires other_sound { B.IsSound b.now }
    requires few { (A.table a.now).pattern_len ≤ 65536 }
    requires other_few { (B.table b.now).pattern_len ≤ 65536 }
    ensures exact { IfOk result (λ yes. IsTrue yes ↔ AreEvidence (A.table a.now) (B.table b.now) links.now) }
    ensures nothing { IfOk result (λ yes. IsTrue yes → NothingParts (A.table a.now) (B.table b.now)) }
{
    let mut known = Pairs::new(alloc);
    for i in 0..links.len() {
        let Some(pair) = find_pair(a, b, &known, &links.get(i)) else {
            return Ok(false);
        };
        if !have_equal_labels(a, b, &pair) {
            return Ok(false);
        }
        known.push(&pair)?;
    }
    let units = representatives(alloc, a, b)?;
    if !knows_nexts(a, b, &units, &known) {
        return Ok(false);
    }
    Ok(knows_starts(a, b, &known))
}

/// The pair that a link names, given those of the links before it.
fn find_pair<A: Automaton, B: Automaton>(a: &A, b: &B, known: &Pairs, link: &Link) -> Option<Pair>
    requires { AreKept (A.ids a.now) (B.ids b.now) known.now }
    ensures { let pairs = pairs_of (A.ids a.now) (B.ids b.now) known.now in
        let found = link_pair (A.table a.now) (B.table b.now) pairs link.now in
        MatchOption result (found ≡ None)
        (λ p. (found ≡ Some (rows_of (A.ids a.now) (B.ids b.now) p)) × IsPairOf (A.ids a.now) (B.ids b.now) p) }
{
    match *link {
        Link::Start(place) => match begin_at(a, b, place) {
            Begin::Rows(pair) => Some(pair),
            Begin::Refused | Begin::Apart => None,
        },
        Link::Next { from, unit } => {
            if from >= known.len() as u64 {
                return None;
            }
            Some(next_of(a, b, &known.get(from as usize), unit))
        }
    }
}

/// Whether the successors of all pairs are known, where units represent all others.
fn knows_nexts<A: Automaton, B: Automaton>(a: &A, b: &B, units: &UnitList, known: &Pairs) -> bool
    requires represent { Represent (A.table a.now) (B.table b.now) units.now }
    requires kept { AreKept (A.ids a.now) (B.ids b.now) known.now }
    ensures { let pairs = pairs_of (A.ids a.now) (B.ids b.now) known.now in
        IsTrue result ↔ ((p : RowPair) → Contains pairs p → HaveNexts (A.table a.now) (B.table b.now) pairs p) }
{
    for i in 0..known.len() {
        if !knows_nexts_of(a, b, units, known, &known.get(i)) {
            return false;
        }
    }
    true
}

/// Whether the successors of a pair are known, where units represent all others.
fn knows_nexts_of<A: Automaton, B: Automaton>(
    a: &A,
    b: &B,
    units: &UnitList,
    known: &Pairs,
    pair: &Pair,
) -> bool
    requires represent { Represent (A.table a.now) (B.table b.now) units.now }
    requires kept { AreKept (A.ids a.now) (B.ids b.now) known.now }
    requires ids { IsPairOf (A.ids a.now) (B.ids b.now) pair.now }
    ensures { IsTrue result ↔ HaveNexts (A.table a.now) (B.table b.now) (pairs_of (A.ids a.now) (B.ids b.now) known.now)
        (rows_of (A.ids a.now) (B.ids b.now) pair.now) }
{
    for i in 0..units.len() {
        if !known.contains(&next_of(a, b, pair, units.get(i))) {
            return false;
        }
    }
    true
}

/// Whether the pairs take care of all places.
fn knows_starts<A: Automaton, B: Automaton>(a: &A, b: &B, known: &Pairs) -> bool
    requires kept { AreKept (A.ids a.now) (B.ids b.now) known.now }
    requires few { (A.table a.now).pattern_len ≤ 65536 }
    requires other_few { (B.table b.now).pattern_len ≤ 65536 }
    ensures { IsTrue result ↔ MeetAll (A.table a.now) (B.table b.now) (pairs_of (A.ids a.now) (B.ids b.now) known.now) }
{
    for m in 0..mode_count(a, b) {
        if !knows_mode(a, b, known, &mode_at(m)) {
            return false;
        }
    }
    true
}

/// Whether the pairs take care of the places of a mode.
fn knows_mode<A: Automaton, B: Automaton>(a: &A, b: &B, known: &Pairs, mode: &Anchored) -> bool
    requires { AreKept (A.ids a.now) (B.ids b.now) known.now }
    ensures { IsTrue result ↔ MeetMode (A.table a.now) (B.table b.now) (pairs_of (A.ids a.now) (B.ids b.now) known.now)
        (mode_of mode.now) }
{
    for n in 0..257 {
        if !knows_place(a, b, known, Place::new(*mode, beside_at(n))) {
            return false;
        }
    }
    true
}

/// Whether the pairs take care of a place.
fn knows_place<A: Automaton, B: Automaton>(a: &A, b: &B, known: &Pairs, place: Place) -> bool
    requires { AreKept (A.ids a.now) (B.ids b.now) known.now }
    ensures { IsTrue result ↔ Meet (A.table a.now) (B.table b.now) (pairs_of (A.ids a.now) (B.ids b.now) known.now)
        place }
{
    match begin_at(a, b, place) {
        Begin::Rows(pair) => known.contains(&pair),
        Begin::Refused => true,
        Begin::Apart => false,
    }
}
