//! A row of each of two tables.

ghost use Rattle.std.specs.Prelude.{◌≡◌, ◌<◌, ◌↔◌, IsTrue, IfOk, OnOk, ℕ, true, length, slice_get, Some};
ghost use Rattle.rx_spec.specs.Ids.{row_of};
ghost use Rattle.rx_base.specs.Unit.{unit_number};
ghost use Rattle.rx_search.specs.Starts.{IsId, refusal_of};
ghost use Rattle.rx_search.specs.Labels.{patterns_of};
ghost use Rattle.rx_spec.specs.Tables.{is_match};
ghost use Rattle.rx_equal.specs.Evidence.{HaveEqualLabels, next_pair, RowPair};
ghost use Rattle.rx_equal.specs.Pairs.{Adds, is_quit_error, AreKept, pairs_of, Begins, IsPairOf, rows_of, knows};
ghost use Rattle.rx_equal.specs.Pairs.{key_of};
ghost use Rattle.std.specs.Prelude.{List, Contains, ◌++◌, ◌∷◌, []};
ghost use Rattle.rx_equal.specs.Pairs.{Knows};

use crate::Place;
use rx_base::{StateID, Unit};
use rx_search::{Automaton, StartError};
use std::alloc::{AllocError, Global};
use std::collections::HashSet;

/// The ids of two rows, one of each table.
#[derive(Clone, Copy)]
pub(crate) struct Pair {
    pub(crate) id: StateID,
    pub(crate) other: StateID,
}

/// How two tables begin at a place.
#[derive(Clone, Copy)]
pub(crate) enum Begin {
    /// At rows.
    Rows(Pair),
    /// Both refuse it alike.
    Refused,
    /// They differ.
    Apart,
}

/// How two tables begin at a place.
pub(crate) fn begin_at<A: Automaton, B: Automaton>(a: &A, b: &B, place: Place) -> Begin
    ensures { Begins (A.table a.now) (A.ids a.now) (B.table b.now) (B.ids b.now) place result }
{
    let config = place.config();
    match a.start_state(&config) {
        Ok(id) => match b.start_state(&config) {
            Ok(other) => Begin::Rows(Pair { id, other }),
            Err(_) => Begin::Apart,
        },
        Err(error) => match b.start_state(&config) {
            Ok(_) => Begin::Apart,
            Err(other) => {
                if is_quit_error(&error) == is_quit_error(&other) {
                    Begin::Refused
                } else {
                    Begin::Apart
                }
            }
        },
    }
}

/// Whether a start is refused because of the byte beside. Refusals of one place that agree on this are equal.
fn is_quit_error(error: &StartError) -> bool
    ensures { result ≡ is_quit_error (refusal_of error.now) }
{
    matches!(error, StartError::Quit { .. })
}

/// The row to which a unit leads.
#[inline(always)]
fn next<A: Automaton>(table: &A, id: StateID, unit: Unit) -> StateID
    requires { IsId (A.ids table.now) id }
    ensures is_id { IsId (A.ids table.now) result }
    ensures row { row_of (A.ids table.now) result
        ≡ (A.table table.now).machine.next (row_of (A.ids table.now) id) (unit_number unit) }
{
    match unit {
        Unit::Byte(byte) => table.next_state(id, byte),
        Unit::Eoi => table.next_eoi_state(id),
    }
}

/// The successors of a pair.
#[inline(always)]
pub(crate) fn next_of<A: Automaton, B: Automaton>(a: &A, b: &B, pair: &Pair, unit: Unit) -> Pair
    requires { IsPairOf (A.ids a.now) (B.ids b.now) pair.now }
    ensures ids { IsPairOf (A.ids a.now) (B.ids b.now) result }
    ensures rows { rows_of (A.ids a.now) (B.ids b.now) result
        ≡ next_pair (A.table a.now) (B.table b.now) (rows_of (A.ids a.now) (B.ids b.now) pair.now) (unit_number unit) }
{
    Pair {
        id: next(a, pair.id, unit),
        other: next(b, pair.other, unit),
    }
}

/// Whether the labels of a pair are equal.
pub(crate) fn have_equal_labels<A: Automaton, B: Automaton>(a: &A, b: &B, pair: &Pair) -> bool
    requires sound { A.IsSound a.now }
    requires other_sound { B.IsSound b.now }
    requires ids { IsPairOf (A.ids a.now) (B.ids b.now) pair.now }
    ensures { IsTrue result ↔ HaveEqualLabels (A.table a.now) (B.table b.now)
        (rows_of (A.ids a.now) (B.ids b.now) pair.now) }
{
    if a.is_match_state(pair.id) {
        if !b.is_match_state(pair.other) {
            return false;
        }
        return have_equal_patterns(a, b, pair);
    }
    if b.is_match_state(pair.other) {
        return false;
    }
    a.is_quit_state(pair.id) == b.is_quit_state(pair.other)
}

/// Whether the patterns of a pair of match rows are equal.
fn have_equal_patterns<A: Automaton, B: Automaton>(a: &A, b: &B, pair: &Pair) -> bool
    requires sound { A.IsSound a.now }
    requires other_sound { B.IsSound b.now }
    requires ids { IsPairOf (A.ids a.now) (B.ids b.now) pair.now }
    requires is_match { is_match (A.table a.now) (row_of (A.ids a.now) pair.now.id) ≡ true }
    requires other_is_match { is_match (B.table b.now) (row_of (B.ids b.now) pair.now.other) ≡ true }
    ensures { IsTrue result ↔ (patterns_of (A.table a.now) (row_of (A.ids a.now) pair.now.id)
        ≡ patterns_of (B.table b.now) (row_of (B.ids b.now) pair.now.other)) }
{
    let len = a.match_len(pair.id);
    if len != b.match_len(pair.other) {
        return false;
    }
    for i in 0..len {
        if a.match_pattern(pair.id, i) != b.match_pattern(pair.other, i) {
            return false;
        }
    }
    true
}

/// Pairs that are known.
#[derive(Drop)]
pub(crate) struct PairSet {
    keys: HashSet<u64>,
}

impl PairSet {
    /// None is known.
    pub(crate) fn new(alloc: Global) -> PairSet
        ensures { (ids others : List ℕ) → Knows ids others result [] }
    {
        PairSet {
            keys: HashSet::new(alloc),
        }
    }

    /// Whether a pair is known.
    #[inline]
    pub(crate) fn contains(&self, pair: &Pair) -> bool
        ensures { IsTrue result ↔ knows self.now pair.now }
    {
        self.keys.contains(&key(pair))
    }

    /// Lets a pair be known, and tells whether it wasn't.
    #[inline]
    pub(crate) fn insert(&mut self, pair: &Pair) -> Result<bool, AllocError>
        ensures added { IfOk result (λ added. IsTrue added ↔ ¬ knows self.old pair.now) }
        ensures known { OnOk result ((ids others : List ℕ) (pairs : List RowPair)
            → IsPairOf ids others pair.now
            → Knows ids others self.old pairs → Knows ids others self.new (pairs ++ rows_of ids others pair.now ∷ [])) }
    {
        match self.keys.insert(key(pair)) {
            Ok(added) => Ok(added),
            Err(_) => Err(AllocError),
        }
    }
}

/// The key of a pair.
#[inline(always)]
fn key(pair: &Pair) -> u64
    ensures { result ≡ key_of pair.now }
{
    (u64::from(pair.id.as_u32()) << 32) + u64::from(pair.other.as_u32())
}

/// Pairs in order, each of which is found by its key.
#[derive(Drop)]
pub(crate) struct Pairs {
    list: Vec<Pair>,
    set: PairSet,
}

impl Pairs {
    /// No pairs.
    pub(crate) fn new(alloc: Global) -> Pairs
        ensures { (ids others : List ℕ) → AreKept ids others result × (pairs_of ids others result ≡ []) }
    {
        Pairs {
            list: Vec::new(alloc),
            set: PairSet::new(alloc),
        }
    }

    /// How many there are.
    #[inline]
    pub(crate) fn len(&self) -> usize
        ensures { result ≡ length self.now.list.items }
    {
        self.list.len()
    }

    /// One of them.
    #[inline]
    pub(crate) fn get(&self, i: usize) -> Pair
        requires { i < length self.now.list.items }
        ensures { slice_get self.now.list.items i ≡ Some result }
    {
        self.list[i]
    }

    /// Whether a pair is one of them.
    #[inline]
    pub(crate) fn contains(&self, pair: &Pair) -> bool
        ensures { (ids others : List ℕ) → AreKept ids others self.now → IsPairOf ids others pair.now
            → IsTrue result ↔ Contains (pairs_of ids others self.now) (rows_of ids others pair.now) }
    {
        self.set.contains(pair)
    }

    /// Adds a pair, which may be there.
    pub(crate) fn push(&mut self, pair: &Pair) -> Result<(), AllocError>
        ensures { OnOk result ((ids others : List ℕ) → AreKept ids others self.old → IsPairOf ids others pair.now
            → AreKept ids others self.new
            × (pairs_of ids others self.new ≡ pairs_of ids others self.old ++ rows_of ids others pair.now ∷ [])) }
    {
        self.set.insert(pair)?;
        self.list.push(*pair)?;
        Ok(())
    }

    /// Adds a pair where it isn't there, and tells whether it wasn't.
    #[inline]
    pub(crate) fn add(&mut self, pair: &Pair) -> Result<bool, AllocError>
        ensures { IfOk result
            (λ added. (ids others : List ℕ) → AreKept ids others self.old → IsPairOf ids others pair.now
            → AreKept ids others self.new
            × Adds (pairs_of ids others self.old) (rows_of ids others pair.now) added (pairs_of ids others self.new)) }
    {
        if !self.set.insert(pair)? {
            return Ok(false);
        }
        self.list.push(*pair)?;
        Ok(true)
    }
}
