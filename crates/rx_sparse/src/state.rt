//! Decoded states.

ghost use Rattle.std.specs.Prelude.{◌≡◌, ◌<◌, ◌≤◌, ◌+◌, ◌*◌, ◌^◌, ◌&&◌, nat_le, get_or, length, slice_index};
ghost use Rattle.std.specs.Int.{w16};
ghost use Rattle.rx_wire.specs.Fields.{number};
ghost use Rattle.rx_sparse.specs.Parts.{IsWholeRow};
ghost use Rattle.rx_sparse.specs.Rows.{next_among, no_range, patterns_len, row_in, word_at};

use crate::ClassRange;
use rx_base::{Needles, PatternID, StateID};
use rx_wire::Order;
use std::marker::Model;

/// A decoded state: its parts, borrowed from the bytes of the table.
///
/// Contracts see it as a `Row`: its ranges, where end of input leads, its patterns and its needles.
#[derive(Clone, Debug, Drop)]
pub struct State<'a> {
    order: Order,
    is_match: bool,
    /// The first and last class of each range and of end of input.
    ends: &'a [u8],
    /// The ids to which the ranges and end of input lead.
    next_ids: &'a [u8],
    /// The patterns, the needles, and the bytes after the row.
    rest: &'a [u8],
}

impl<'a> Model for State<'a> {
    ghost use Rattle.rx_sparse.specs.Rows.{Row, row_of_parts};
    ghost use Rattle.rx_sparse.specs.Parts.{IsDecoded};

    ghost Value = { Row };

    ghost view = { λ s. row_of_parts s.order s.is_match s.ends.now s.next_ids.now s.rest.now };

    ghost invariant = { λ s. IsDecoded s.order s.is_match s.ends.now s.next_ids.now s.rest.now };
}

/// The number that two bytes spell.
#[inline(always)]
#[tactic(auto, using(crate::proofs::WordBytes::two))]
fn head_number(order: Order, bytes: &[u8]) -> usize
    requires { length bytes.now ≡ 2 }
    ensures value { result ≡ number order w16 bytes.now }
    ensures bound { result < 2 ^ 16 }
{
    order.u16_from_bytes([bytes[0], bytes[1]]) as usize
}

/// The word at an index.
#[inline(always)]
#[tactic(auto, using(crate::proofs::WordBytes::four))]
pub(crate) fn word_at(order: Order, bytes: &[u8], i: usize) -> u32
    requires { 4 * i + 4 ≤ length bytes.now }
    ensures { result ≡ word_at order bytes.now i }
{
    let at = 4 * i;
    order.u32_from_bytes([bytes[at], bytes[at + 1], bytes[at + 2], bytes[at + 3]])
}

/// Whether the range at an index has a class.
#[inline(always)]
fn has_class(ends: &[u8], i: usize, class: u8) -> bool
    requires { 2 * i + 1 < length ends.now }
    ensures { result
        ≡ (nat_le (slice_index ends.now (2 * i)) class && nat_le class (slice_index ends.now (2 * i + 1))) }
{
    ends[2 * i] <= class && class <= ends[2 * i + 1]
}

/// The length in bytes of a row's patterns with their count.
#[inline(always)]
fn patterns_len(order: Order, is_match: bool, rest: &[u8]) -> usize
    requires { patterns_len order is_match rest.now < length rest.now }
    ensures { result ≡ patterns_len order is_match rest.now }
{
    if is_match {
        4 + 4 * word_at(order, rest, 0) as usize
    } else {
        0
    }
}

impl<'a> State<'a> {
    /// The state that some bytes begin with.
    #[inline(always)]
    pub(crate) fn at(order: Order, bytes: &'a [u8]) -> State<'a>
        requires { IsWholeRow order bytes.now }
        ensures { result ≡ row_in order bytes.now }
    {
        let (head, rest) = bytes.split_at(2);
        let head = head_number(order, head);
        let count = head % 32768;
        let (ends, rest) = rest.split_at(2 * count);
        let (next_ids, rest) = rest.split_at(4 * count);
        State {
            order,
            is_match: head >= 32768,
            ends,
            next_ids,
            rest,
        }
    }

    /// The number of ranges, without that of end of input.
    pub fn range_len(&self) -> usize
        ensures { result ≡ length self.now.ranges }
    {
        self.ends.len() / 2 - 1
    }

    /// The range at an index.
    #[inline(always)]
    pub fn range(&self, i: usize) -> ClassRange
        requires { i < length self.now.ranges }
        ensures { result ≡ get_or self.now.ranges i no_range }
    {
        let ends = self.ends;
        ClassRange {
            first: ends[2 * i],
            last: ends[2 * i + 1],
            next: word_at(self.order, self.next_ids, i),
        }
    }

    /// The state to which a class leads. It is dead if no range has the class.
    #[inline(always)]
    pub fn next(&self, class: u8) -> StateID
        ensures { result ≡ next_among self.now.ranges class }
    {
        let count = self.ends.len() / 2 - 1;
        for i in 0..count {
            if has_class(self.ends, i, class) {
                return StateID::must(word_at(self.order, self.next_ids, i) as usize);
            }
        }
        StateID::ZERO
    }

    /// The state to which end of input leads.
    #[inline(always)]
    pub fn next_eoi(&self) -> StateID
        ensures { result ≡ self.now.eoi }
    {
        let last = self.ends.len() / 2 - 1;
        StateID::must(word_at(self.order, self.next_ids, last) as usize)
    }

    /// The number of patterns of a match state. Any other state has none.
    #[inline(always)]
    pub fn pattern_len(&self) -> usize
        ensures { result ≡ length self.now.patterns }
    {
        if self.is_match {
            word_at(self.order, self.rest, 0) as usize
        } else {
            0
        }
    }

    /// The pattern at an index among those of the state.
    #[inline(always)]
    pub fn pattern(&self, i: usize) -> PatternID
        requires { i < length self.now.patterns }
        ensures { result ≡ slice_index self.now.patterns i }
    {
        PatternID::must(word_at(self.order, self.rest, i + 1) as usize)
    }

    /// The needles of an accelerated state. Any other state has none.
    #[inline(always)]
    pub fn needles(&self) -> Needles
        ensures { result ≡ self.now.needles }
    {
        let rest = &self.rest[patterns_len(self.order, self.is_match, self.rest)..];
        let len = rest[0] as usize;
        Needles::new(&rest[1..1 + len])
    }
}
