//! The iterator over the matches by a plan's tables.

use rx_base::{Match, MatchError};
use rx_dense::OwnedDFA;
use rx_pair::FindMatches;
use rx_sparse::DFA as SparseDFA;
use std::marker::Model;

/// The matches by dense or by sparse tables.
#[derive(Drop)]
pub(crate) enum FormMatches<'r, 'h> {
    Dense(FindMatches<'r, 'h, OwnedDFA>),
    Sparse(FindMatches<'r, 'h, SparseDFA<Vec<u8>>>),
}

/// The matches of an input one after another, then the error that ended them, if any. Contracts see the iterator as the
/// list of the items that are left.
#[derive(Drop)]
pub struct BuiltMatches<'r, 'h> {
    pub(crate) matches: FormMatches<'r, 'h>,
}

impl<'r, 'h> Model for BuiltMatches<'r, 'h> {
    ghost use Rattle.std.specs.Prelude.{List, Result};
    ghost use Rattle.rx_spec.specs.Queries.{Match as FoundMatch, MatchError as SearchError};
    ghost use Rattle.rx_regex.specs.Forms.{matches_left};

    ghost Value = { List (Result FoundMatch SearchError) };

    ghost view = { λ m. matches_left m.matches };
}

impl<'r, 'h> Iterator for BuiltMatches<'r, 'h> {
    ghost use Rattle.std.specs.Iterator.{YieldsFirst, item_count};

    type Item = Result<Match, MatchError>;

    ghost next_gives = { YieldsFirst (λ left. left) };

    ghost remaining = { item_count (λ left. left) };

    fn next(&mut self) -> Option<Result<Match, MatchError>> {
        match &mut self.matches {
            FormMatches::Dense(matches) => matches.next(),
            FormMatches::Sparse(matches) => matches.next(),
        }
    }
}
