//! Sets of assertions, and whether an assertion holds at a place of a haystack.

ghost use Rattle.std.specs.Prelude.{◌≡◌, ◌≢◌, ◌≤◌, ◌<◌, ◌↔◌, IsTrue, true, false, length};
ghost use Rattle.std.specs.List.{count_by};
ghost use Rattle.rx_spec.specs.Looks.{holds, before, after, is_unicode_word};
ghost use Rattle.rx_spec.specs.Contexts.{facts_of};
ghost use Rattle.rx_base.specs.LookSet.{holds_look, look_number, all_looks};

use crate::{Facts, Look, Start};
use std::marker::Model;

/// The bits of all 18 assertions.
const ALL: u32 = 0x3ffff;

/// The assertions of Unicode words.
const WORD_UNICODE: [Look; 6] = [
    Look::WordUnicode,
    Look::WordUnicodeNegate,
    Look::WordStartUnicode,
    Look::WordEndUnicode,
    Look::WordStartHalfUnicode,
    Look::WordEndHalfUnicode,
];

/// A set of assertions: a bit for each, in the order of [`Look`].
///
/// Contracts see it as the number that its bits make.
#[derive(Clone, Copy, Debug, Default, PartialEq, Eq)]
pub struct LookSet {
    bits: u32,
}

impl Model for LookSet {
    ghost use Rattle.std.specs.Prelude.{ℕ, ◌<◌, ◌^◌};

    ghost Value = { ℕ };

    ghost view = { λ set. set.bits };

    ghost invariant = { λ set. set.bits < 2 ^ 18 };

    ghost inverse = { λ n. record { bits = n } };
}

impl LookSet {
    /// No assertion.
    pub fn empty() -> LookSet
        ensures { (look : Look) → holds_look result look ≡ false }
    {
        LookSet { bits: 0 }
    }

    /// All 18 assertions.
    pub fn full() -> LookSet
        ensures { (look : Look) → holds_look result look ≡ true }
    {
        LookSet { bits: ALL }
    }

    /// The set with this assertion too.
    pub fn insert(self, look: Look) -> LookSet
        ensures inserted { holds_look result look ≡ true }
        ensures others { (other : Look) → other ≢ look → holds_look result other ≡ holds_look self other }
    {
        LookSet {
            bits: self.bits | 1 << bit_of(look),
        }
    }

    /// The set without this assertion.
    pub fn remove(self, look: Look) -> LookSet
        ensures removed { holds_look result look ≡ false }
        ensures others { (other : Look) → other ≢ look → holds_look result other ≡ holds_look self other }
    {
        LookSet {
            bits: self.bits & !(1 << bit_of(look)),
        }
    }

    /// Whether an assertion is in the set.
    pub fn contains(self, look: Look) -> bool
        ensures { result ≡ holds_look self look }
    {
        (self.bits >> bit_of(look)) & 1 == 1
    }

    /// Whether one of the six assertions of Unicode words is in the set.
    pub fn contains_word_unicode(self) -> bool
        ensures { IsTrue result ↔ ((look : Look) × (is_unicode_word look ≡ true) × (holds_look self look ≡ true)) }
    {
        for look in WORD_UNICODE {
            if self.contains(look) {
                return true;
            }
        }
        false
    }

    /// How many assertions are in the set.
    pub fn len(self) -> usize
        ensures { result ≡ count_by (holds_look self) all_looks }
    {
        self.bits.count_ones() as usize
    }
}

fn bit_of(look: Look) -> u32
    ensures { result ≡ look_number look }
{
    look as u32
}

/// The byte before an offset, where there is one.
pub(crate) fn byte_before(haystack: &[u8], at: usize) -> Option<u8>
    ensures { result ≡ before haystack.now at }
{
    match at.checked_sub(1) {
        Some(i) => haystack.get(i).copied(),
        None => None,
    }
}

/// The byte at an offset, where there is one.
pub(crate) fn byte_after(haystack: &[u8], at: usize) -> Option<u8>
    ensures { result ≡ after haystack.now at }
{
    haystack.get(at).copied()
}

/// Decides assertions, under a line terminator.
///
/// Contracts see it as that byte.
#[derive(Clone, Debug, Drop)]
pub struct LookMatcher {
    line_terminator: u8,
}

impl Model for LookMatcher {
    ghost use Rattle.std.specs.Prelude.{ℕ};

    ghost Value = { ℕ };

    ghost view = { λ matcher. matcher.line_terminator };
}

impl LookMatcher {
    /// With this line terminator.
    pub fn new(line_terminator: u8) -> LookMatcher
        ensures { result ≡ line_terminator }
    {
        LookMatcher { line_terminator }
    }

    /// The line terminator.
    pub fn get_line_terminator(&self) -> u8
        ensures { result ≡ self.now }
    {
        self.line_terminator
    }

    /// Whether an assertion holds at an offset, which must be within the haystack or at its end.
    pub fn matches(&self, look: Look, haystack: &[u8], at: usize) -> bool
        requires { at ≤ length haystack.now }
        ensures { result ≡ holds look self.now (before haystack.now at) (after haystack.now at) }
    {
        let before = self.facts(byte_before(haystack, at));
        let after = self.facts(byte_after(haystack, at));
        Facts::decide(look, before, after)
    }

    /// What is known of a neighbour, which may be absent.
    fn facts(&self, neighbour: Option<u8>) -> Facts
        ensures { result ≡ facts_of self.now neighbour }
    {
        match neighbour {
            Some(byte) => Facts::of_byte(self.line_terminator, byte),
            None => Facts::of_start(self.line_terminator, Start::Text),
        }
    }
}

impl Default for LookMatcher {
    ghost is_default = { λ matcher. matcher ≡ 10 };

    fn default() -> LookMatcher {
        LookMatcher::new(b'\n')
    }
}
