//! The iterator over the matches of an input.

ghost use Rattle.std.specs.Prelude.{◌≡◌, All, IfOk, IfSome, Some};
ghost use Rattle.rx_spec.specs.Iterating.{iterate, unless_repeat};
ghost use Rattle.rx_spec.specs.Joining.{join};
ghost use Rattle.rx_spec.specs.Queries.{IsFit, LiesIn};
ghost use Rattle.rx_base.specs.Input.{query_of};
ghost use Rattle.rx_spec.specs.declared.Direction.{Direction};
ghost use Rattle.rx_pair.specs.UnderWay.{IsUnderWay};
ghost use Rattle.rx_pair.specs.Matches.{items};

use crate::Regex;
use crate::beside::Standpoint;
use rx_base::{Input, Match, MatchError, Searcher};
use rx_search::Automaton;
use std::marker::Model;

/// The matches of an input one after another, then the error that ended them, if any.
///
/// Each match begins where the last one ended or later. An empty match that would begin where the last match ended is
/// left out. Contracts see the iterator as the list of the items that are left.
#[derive(Drop)]
pub struct FindMatches<'r, 'h, A: Automaton> {
    regex: &'r Regex<A>,
    searcher: Searcher<'h>,
    ended: bool,
    // Where the forward search of what is left stands, if it is under way.
    ahead: Option<Standpoint>,
}

impl<'r, 'h, A: Automaton> Model for FindMatches<'r, 'h, A> {
    ghost use Rattle.std.specs.Prelude.{◌≡◌, false, List, Result, [], if◌then◌else◌, IfSome};
    ghost use Rattle.rx_spec.specs.Joining.{join};
    ghost use Rattle.rx_spec.specs.Queries.{Match as FoundMatch, MatchError as SearchError};
    ghost use Rattle.rx_spec.specs.declared.Direction.{Direction};
    ghost use Rattle.rx_pair.specs.UnderWay.{IsUnderWay};
    ghost use Rattle.rx_pair.specs.Matches.{items, matches_left};

    ghost Value = { List (Result FoundMatch SearchError) };

    ghost view = { λ s. if s.ended
        then []
        else items (matches_left (join (A.table s.regex.now.forward) (A.table s.regex.now.reverse)) s.searcher) };

    ghost invariant = { λ s. s.ended ≡ false → IfSome s.ahead (λ a.
        IsUnderWay (A.table s.regex.now.forward) (A.ids s.regex.now.forward) Direction.Forward s.searcher.query
        a.row a.at) };
}

impl<'r, 'h, A: Automaton> FindMatches<'r, 'h, A> {
    /// An iterator over all matches of an input.
    pub(crate) fn new(regex: &'r Regex<A>, input: &Input<'h>) -> FindMatches<'r, 'h, A>
        requires { IsFit (query_of input.now) }
        ensures value { result
            ≡ items (iterate (join (A.table regex.now.forward) (A.table regex.now.reverse)) (query_of input.now)) }
        ensures within { All (λ item. IfOk item (LiesIn (query_of input.now))) result }
    {
        let all = Input::new(input.haystack())
            .span(input.get_span())
            .anchored(input.get_anchored())
            .earliest(input.get_earliest());
        FindMatches {
            regex,
            searcher: Searcher::new(all),
            ended: false,
            ahead: None,
        }
    }
}

impl<'r, 'h, A: Automaton> Iterator for FindMatches<'r, 'h, A> {
    ghost use Rattle.std.specs.Iterator.{YieldsFirst, item_count};

    type Item = Result<Match, MatchError>;

    ghost next_gives = { YieldsFirst (λ left. left) };

    ghost remaining = { item_count (λ left. left) };

    fn next(&mut self) -> Option<Result<Match, MatchError>> {
        if self.ended {
            return None;
        }
        match next_match(self.regex, &mut self.searcher, &mut self.ahead) {
            Ok(Some(found)) => Some(Ok(found)),
            Ok(None) => {
                self.ended = true;
                None
            }
            Err(error) => {
                self.ended = true;
                Some(Err(error))
            }
        }
    }
}

/// The next match. If it is empty and lies where the last match ended, searches again from the next place. The rest of
/// the input begins where the match ends.
fn next_match<A: Automaton>(
    regex: &Regex<A>,
    searcher: &mut Searcher<'_>,
    ahead: &mut Option<Standpoint>,
) -> Result<Option<Match>, MatchError>
    requires ahead { IfSome ahead.old (λ s. IsUnderWay (A.table regex.now.forward) (A.ids regex.now.forward)
        Direction.Forward searcher.old.query s.row s.at) }
    ensures told { result ≡ unless_repeat (join (A.table regex.now.forward) (A.table regex.now.reverse))
        searcher.old.query searcher.old.last_end
        (join (A.table regex.now.forward) (A.table regex.now.reverse) searcher.old.query) }
    ensures left { IfOk result (λ found. IfSome found (λ m. searcher.new
        ≡ record { query = record searcher.old.query { start = m.end }; last_end = Some m.end })) }
    ensures ahead { IfOk result (λ found. IfSome found (λ m. IfSome ahead.new (λ s.
        IsUnderWay (A.table regex.now.forward) (A.ids regex.now.forward) Direction.Forward
        searcher.new.query s.row s.at))) }
{
    let mut found = match regex.search_on(searcher.input(), ahead) {
        Ok(Some(found)) => found,
        Ok(None) => return Ok(None),
        Err(error) => return Err(error),
    };
    if searcher.repeats(&found) {
        searcher.bump();
        *ahead = None;
        found = match regex.search_on(searcher.input(), ahead) {
            Ok(Some(found)) => found,
            Ok(None) => return Ok(None),
            Err(error) => return Err(error),
        };
    }
    searcher.accept(&found);
    Ok(Some(found))
}
