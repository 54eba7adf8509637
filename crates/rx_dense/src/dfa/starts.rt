//! Start entries, handed out one by one.

ghost use Rattle.std.specs.Prelude.{◌≡◌, ◌<◌, ◌≤◌, ◌+◌, ◌*◌};
ghost use Rattle.rx_spec.specs.Causes.{max_id};
ghost use Rattle.rx_base.specs.Search.{mode_of};
ghost use Rattle.rx_dense.specs.Layouts.{AreStarts, context_number, mode_place};
ghost use Rattle.rx_dense.specs.States.{starts_of};

use crate::{DFA, WordStore};
use rx_base::{Anchored, PatternID, Start, StateID};
use std::marker::Model;
use std::ops::Range;

impl<T: WordStore> DFA<T> {
    /// The start entries in their order: for each mode and each context the id of the row in which a search starts.
    pub fn starts(&self) -> StartStateIter<'_, T>
        ensures value { result ≡ starts_of self.now }
        ensures are_starts { AreStarts self.now }
    {
        StartStateIter {
            dfa: self,
            places: 0..self.start_ids().len(),
        }
    }
}

/// The start entries that [`DFA::starts`] yields, each an id with its mode and its context.
///
/// Contracts see it as the list of those that are left.
#[derive(Drop)]
pub struct StartStateIter<'a, T: WordStore> {
    dfa: &'a DFA<T>,
    /// The places of the entries that weren't yielded.
    places: Range<usize>,
}

impl<'a, T: WordStore> Model for StartStateIter<'a, T> {
    ghost use Rattle.std.specs.Prelude.{ℕ, ◌≡◌, List, length, drop};
    ghost use Rattle.rx_spec.specs.declared.Start.{Start};
    ghost use Rattle.rx_base.specs.declared.search.Anchored.{Anchored};
    ghost use Rattle.rx_dense.specs.States.{starts_of};

    ghost Value = { List (ℕ × Anchored × Start) };

    ghost view = { λ s. drop s.places.start (starts_of s.dfa.now) };

    ghost invariant = { λ s. (s.places.end ≡ length s.dfa.now.starts)
        × (s.places.end ≡ length (starts_of s.dfa.now)) };
}

impl<'a, T: WordStore> Iterator for StartStateIter<'a, T> {
    ghost use Rattle.std.specs.Iterator.{YieldsFirst, item_count};

    type Item = (StateID, Anchored, Start);

    ghost next_gives = { YieldsFirst (λ left. left) };

    ghost remaining = { item_count (λ left. left) };

    fn next(&mut self) -> Option<(StateID, Anchored, Start)> {
        let place = self.places.next()?;
        let id = StateID::must(self.dfa.start_ids()[place] as usize);
        Some((id, mode_of_group(place / 6), context_of_number(place % 6)))
    }
}

/// The mode of a group of six start entries, by the group's number.
fn mode_of_group(group: usize) -> Anchored
    requires { group ≤ max_id + 2 }
    ensures { mode_place (mode_of result) ≡ 6 * group }
{
    match group {
        0 => Anchored::No,
        1 => Anchored::Yes,
        _ => Anchored::Pattern(PatternID::must(group - 2)),
    }
}

/// The start context of a place among the six start entries of a mode.
fn context_of_number(number: usize) -> Start
    requires { number < 6 }
    ensures { context_number result ≡ number }
{
    match number {
        0 => Start::NonWordByte,
        1 => Start::WordByte,
        2 => Start::Text,
        3 => Start::LineLF,
        4 => Start::LineCR,
        _ => Start::CustomLineTerminator,
    }
}
