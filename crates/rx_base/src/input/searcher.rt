//! Matches one after another.

ghost use Rattle.std.specs.Prelude.{◌≡◌, ◌+◌, ◌≤◌, Some, None, false};
ghost use Rattle.rx_spec.specs.Queries.{is_done, IsFit};
ghost use Rattle.rx_spec.specs.Iterating.{is_repeat};
ghost use Rattle.rx_base.specs.Input.{query_of};

use crate::{Input, Match};
use std::marker::Model;

/// What is left to search for matches one after another, and where the last of them ended.
///
/// Contracts see it as a query with that place.
#[derive(Drop)]
pub struct Searcher<'h> {
    input: Input<'h>,
    last_match_end: Option<usize>,
}

impl<'h> Model for Searcher<'h> {
    ghost use Rattle.rx_spec.specs.Queries.{IsFit};
    ghost use Rattle.rx_base.specs.Input.{query_of};
    ghost use Rattle.rx_base.specs.Searcher.{Search};

    ghost Value = { Search };

    ghost view = { λ s. record { query = query_of s.input; last_end = s.last_match_end } };

    ghost invariant = { λ s. IsFit (query_of s.input) };
}

impl<'h> Searcher<'h> {
    /// All of an input, before its first match.
    pub fn new(input: Input<'h>) -> Searcher<'h>
        requires { IsFit (query_of input) }
        ensures { result ≡ record { query = query_of input.entry; last_end = None } }
    {
        // The checker moves no input as a whole, since its mode may hold an id beside a borrow.
        let Input {
            haystack,
            span,
            anchored,
            earliest,
        } = input;
        Searcher {
            input: Input {
                haystack,
                span,
                anchored,
                earliest,
            },
            last_match_end: None,
        }
    }

    /// What is searched next.
    pub fn input(&self) -> &Input<'h>
        ensures asked { query_of result.now ≡ self.now.query }
        ensures fits { IsFit self.now.query }
    {
        &self.input
    }

    /// Whether a match is empty and ends where the last one did, so that it isn't told again.
    pub fn repeats(&self, m: &Match) -> bool
        ensures { result ≡ is_repeat self.now.last_end m.now }
    {
        m.is_empty() && self.last_match_end == Some(m.end())
    }

    /// Goes on at the next place. There must be one: the input isn't done.
    pub fn bump(&mut self)
        requires { is_done self.old.query ≡ false }
        ensures { self.new
            ≡ record self.old { query = record self.old.query { start = self.old.query.start + 1 } } }
    {
        let next = self.input.start() + 1;
        self.input.set_start(next);
    }

    /// Goes on where a match ends, within the input: it is the last one now.
    pub fn accept(&mut self, m: &Match)
        requires { m.now.end ≤ self.old.query.end }
        ensures { self.new ≡ record { query = record self.old.query { start = m.now.end }; last_end = Some m.now.end } }
    {
        self.input.set_start(m.end());
        self.last_match_end = Some(m.end());
    }
}
