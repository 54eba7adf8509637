//! The searcher.

ghost use Rattle.std.specs.Prelude.{◌≡◌, ◌≤◌, ◌+◌, ◌-◌, ◌^◌, true, length, MatchResult};
ghost use Rattle.rx_base.specs.Search.{mode_of};
ghost use Rattle.rx_search.specs.Starts.{IsId};
ghost use Rattle.rx_stream.specs.Calls.{IsNew, IsUnsupported, IsFed, IsFinished, IsNextPattern, is_open};

use crate::place::{Place, Stage};
use crate::walk::{Halt, walk};
use crate::{Fed, StreamEvent};
use rx_base::{Anchored, HalfMatch, Input, MatchError};
use rx_search::Automaton;

/// A search of a text that comes in pieces.
#[derive(Drop)]
pub struct StreamSearcher<A: Automaton> {
    table: A,
    place: Place,
    ghost sound: { A.IsSound table } by { A.sound_fact table },
    ghost is_id: { IsId (A.ids table) place.row },
}

impl<A: Automaton> StreamSearcher<A> {
    /// A searcher at the beginning of a text. Requires a sound table, owned or borrowed. Returns `UnsupportedAnchored`
    /// if the table has no start states for the mode.
    pub fn new(table: A, mode: Anchored) -> Result<StreamSearcher<A>, MatchError>
        requires { A.IsSound table }
        ensures { MatchResult result
            (λ searcher. (searcher.table ≡ table)
            × IsNew (A.table table) (A.ids table) (mode_of mode) searcher.place)
            (IsUnsupported (A.table table) (mode_of mode)) }
    {
        match table.start_state_forward(&Input::new(&[]).anchored(mode)) {
            Err(error) => Err(error),
            Ok(row) => Ok(StreamSearcher {
                table,
                place: Place {
                    row,
                    told: 0,
                    offset: 0,
                    taken: 0,
                    stage: Stage::Open,
                },
            }),
        }
    }

    /// Reads a piece from the place `from` up to the next event or to its end. Requires that the searcher is open, that
    /// `from` is at most the length of the piece, and that the text has at most 2^62 bytes with this piece.
    #[inline]
    pub fn feed(&mut self, piece: &[u8], from: usize) -> Fed
        requires open { is_open self.old.place.stage ≡ true }
        requires within { from ≤ length piece.now }
        requires room { self.old.place.taken + (length piece.now - from) ≤ 2 ^ 62 }
        ensures table { self.new.table ≡ self.old.table }
        ensures fed { IsFed (A.table self.old.table) (A.ids self.old.table) self.old.place self.new.place
            piece.now from result }
    {
        if let Some(found) = self.next_pattern() {
            return Fed::with_event(from, StreamEvent::Match(found));
        }
        let place = self.place;
        match walk(&self.table, place.row, piece, from) {
            Halt::Match { row, at } => {
                let offset = place.taken + (at - from);
                let found = HalfMatch::new(self.table.match_pattern(row, 0), offset);
                self.place = Place {
                    row,
                    told: 1,
                    offset,
                    taken: offset + 1,
                    ..place
                };
                Fed::with_event(at + 1, StreamEvent::Match(found))
            }
            Halt::Quit { row, byte, at } => {
                let offset = place.taken + (at - from);
                self.place = Place {
                    row,
                    taken: offset + 1,
                    ..place
                };
                Fed::with_event(at + 1, StreamEvent::Quit { byte, offset })
            }
            Halt::End { row } => {
                self.place = Place {
                    row,
                    taken: place.taken + (piece.len() - from),
                    ..place
                };
                Fed {
                    used: piece.len(),
                    event: None,
                }
            }
        }
    }

    /// Ends the text and returns the next event that is left. After that no piece may be fed.
    pub fn finish(&mut self) -> Option<StreamEvent>
        ensures table { self.new.table ≡ self.old.table }
        ensures finished { IsFinished (A.table self.old.table) (A.ids self.old.table) self.old.place self.new.place
            result }
    {
        self.place.stage = self.place.stage.closed();
        if let Some(found) = self.next_pattern() {
            return Some(StreamEvent::Match(found));
        }
        if self.place.stage.is_ended() {
            return None;
        }
        let row = self.table.next_eoi_state(self.place.row);
        self.place = Place {
            row,
            told: 0,
            offset: self.place.taken,
            taken: self.place.taken,
            stage: Stage::Ended,
        };
        match self.next_pattern() {
            Some(found) => Some(StreamEvent::Match(found)),
            None => None,
        }
    }

    /// Whether a piece may be fed.
    pub fn is_open(&self) -> bool
        ensures { result ≡ is_open self.now.place.stage }
    {
        self.place.stage == Stage::Open
    }

    /// The number of bytes read.
    pub fn taken(&self) -> u64
        ensures { result ≡ self.now.place.taken }
    {
        self.place.taken as u64
    }

    /// The match of the state's next pattern, if the state is a match state with a pattern that isn't reported yet.
    #[inline(always)]
    fn next_pattern(&mut self) -> Option<HalfMatch>
        ensures table { self.new.table ≡ self.old.table }
        ensures told { IsNextPattern (A.table self.old.table) (A.ids self.old.table) self.old.place self.new.place
            result }
    {
        let place = self.place;
        if !self.table.is_match_state(place.row) {
            return None;
        }
        if place.told >= self.table.match_len(place.row) {
            return None;
        }
        let pattern = self.table.match_pattern(place.row, place.told);
        self.place = Place {
            told: place.told + 1,
            ..place
        };
        Some(HalfMatch::new(pattern, place.offset))
    }
}
