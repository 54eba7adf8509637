//! The pair of tables.

ghost use Rattle.std.specs.Prelude.{◌≡◌, ◌≤◌, ◌==◌, ◌||◌, true, length, All, IfOk, IfSome, None, Ok, Some};
ghost use Rattle.rx_spec.specs.Iterating.{iterate};
ghost use Rattle.rx_spec.specs.Joining.{back_from, join, match_at, with_end, with_start};
ghost use Rattle.rx_spec.specs.Queries.{IsFit, LiesIn, is_anchored};
ghost use Rattle.rx_spec.specs.Splits.{half_unsplit};
ghost use Rattle.rx_spec.specs.declared.Direction.{Direction};
ghost use Rattle.rx_base.specs.Input.{query_of};
ghost use Rattle.rx_search.specs.Walks.{IsInSpan};
ghost use Rattle.rx_pair.specs.UnderWay.{IsUnderWay};
ghost use Rattle.rx_pair.specs.Matches.{is_found, items};

use crate::FindMatches;
use crate::beside::{Standpoint, begin, pass_both};
use rx_base::{Anchored, Direction, HalfMatch, Input, Match, MatchError, MatchErrorKind, Span};
use rx_search::{Automaton, find_fwd_from, find_rev_from};

/// Two sound tables that are searched together: forward for the end of a match, in reverse for its start.
///
/// Any two tables make a pair. If they aren't tables of the same patterns, a search may find an end without a start and
/// then returns the error `PairMismatch`.
#[derive(Drop)]
pub struct Regex<A: Automaton> {
    forward: A,
    reverse: A,
    ghost forward_sound: { A.IsSound forward } by { A.sound_fact forward },
    ghost reverse_sound: { A.IsSound reverse } by { A.sound_fact reverse },
}

impl<A: Automaton> Regex<A> {
    /// Makes a pair of any two sound tables.
    pub fn new(forward: A, reverse: A) -> Regex<A>
        requires forward { A.IsSound forward }
        requires reverse { A.IsSound reverse }
        ensures forward { result.forward ≡ forward }
        ensures reverse { result.reverse ≡ reverse }
    {
        Regex { forward, reverse }
    }

    /// The forward table.
    pub fn forward(&self) -> &A
        ensures table { result.now ≡ self.now.forward }
        ensures sound { A.IsSound self.now.forward }
    {
        &self.forward
    }

    /// The reverse table.
    pub fn reverse(&self) -> &A
        ensures table { result.now ≡ self.now.reverse }
        ensures sound { A.IsSound self.now.reverse }
    {
        &self.reverse
    }

    /// The number of patterns. Requires that both tables have the same number.
    pub fn pattern_len(&self) -> usize
        requires { (A.table self.now.forward).pattern_len ≡ (A.table self.now.reverse).pattern_len }
        ensures { result ≡ (A.table self.now.forward).pattern_len }
    {
        self.forward.pattern_len()
    }

    /// Whether an input has a match. The forward search stops at the first end that it reads.
    pub fn is_match(&self, input: &Input<'_>) -> Result<bool, MatchError>
        requires { IsFit (query_of input.now) }
        ensures { result ≡ is_found (half_unsplit (A.table self.now.forward) Direction.Forward
            (record (query_of input.now) { earliest = true })) }
    {
        let first = Input::new(input.haystack())
            .span(input.get_span())
            .anchored(input.get_anchored())
            .earliest(true);
        match self.forward.try_search_fwd(&first) {
            Ok(end) => Ok(end.is_some()),
            Err(error) => Err(error),
        }
    }

    /// The leftmost match of an input, as [`Regex::try_search`] returns it.
    pub fn find(&self, input: &Input<'_>) -> Result<Option<Match>, MatchError>
        requires { IsFit (query_of input.now) }
        ensures answer { result ≡ join (A.table self.now.forward) (A.table self.now.reverse) (query_of input.now) }
        // A match lies in the span.
        ensures within { IfOk result (λ found. IfSome found (LiesIn (query_of input.now))) }
    {
        self.try_search(input)
    }

    /// The matches of an input one after another. Each begins where the last one ended or later, and an empty match
    /// where the last one ended is left out. After an error the iterator yields nothing.
    pub fn find_iter<'r, 'h>(&'r self, input: &Input<'h>) -> FindMatches<'r, 'h, A>
        requires { IsFit (query_of input.now) }
        ensures value { result
            ≡ items (iterate (join (A.table self.now.forward) (A.table self.now.reverse)) (query_of input.now)) }
        // Each match lies in the span.
        ensures within { All (λ item. IfOk item (LiesIn (query_of input.now))) result }
    {
        FindMatches::new(self, input)
    }

    /// The leftmost match of an input. If the input asks for the earliest match, the first whose end is read.
    ///
    /// The forward search gives the end. The start is the span's start if the end is there too, if the search is
    /// anchored, or if every match must begin at the edge of the haystack. Otherwise the reverse search gives the
    /// start, back from the end. If it gives none, or one of another pattern, the error is `PairMismatch`.
    pub fn try_search(&self, input: &Input<'_>) -> Result<Option<Match>, MatchError>
        requires { IsFit (query_of input.now) }
        ensures answer { result ≡ join (A.table self.now.forward) (A.table self.now.reverse) (query_of input.now) }
        // A match lies in the span.
        ensures within { IfOk result (λ found. IfSome found (LiesIn (query_of input.now))) }
    {
        match self.forward.try_search_fwd(input) {
            Ok(Some(end)) => self.match_with_end(input, &end),
            Ok(None) => Ok(None),
            Err(error) => Err(error),
        }
    }

    /// The match with this end: what [`Regex::try_search`] returns if the forward search of the input gives the end.
    pub fn match_with_end(
        &self,
        input: &Input<'_>,
        end: &HalfMatch,
    ) -> Result<Option<Match>, MatchError>
        requires fits { IsFit (query_of input.now) }
        requires in_span { IsInSpan (query_of input.now) end.now.offset }
        ensures answer { result
            ≡ with_end (half_unsplit (A.table self.now.reverse) Direction.Reverse)
            (A.table self.now.forward).is_always_start_anchored (query_of input.now) (Ok (Some end.now)) }
        ensures within { IfOk result (λ found. IfSome found (LiesIn (query_of input.now))) }
    {
        if self.starts_at_span(input, end) {
            return Ok(Some(match_from(input.start(), end)));
        }
        let before = input_before(input, end.offset());
        with_start(end, self.reverse.try_search_rev(&before))
    }

    /// As [`Regex::try_search`], where the forward search may be under way. Afterwards that of the rest, behind the
    /// match, may be.
    pub(crate) fn search_on(
        &self,
        input: &Input<'_>,
        ahead: &mut Option<Standpoint>,
    ) -> Result<Option<Match>, MatchError>
        requires fits { IsFit (query_of input.now) }
        requires ahead { IfSome ahead.old (λ s. IsUnderWay (A.table self.now.forward) (A.ids self.now.forward)
            Direction.Forward (query_of input.now) s.row s.at) }
        ensures answer { result ≡ join (A.table self.now.forward) (A.table self.now.reverse) (query_of input.now) }
        ensures within { IfOk result (λ found. IfSome found (LiesIn (query_of input.now))) }
        ensures ahead { IfOk result (λ found. IfSome found (λ m. IfSome ahead.new (λ s.
            IsUnderWay (A.table self.now.forward) (A.ids self.now.forward) Direction.Forward
            (record (query_of input.now) { start = m.end }) s.row s.at))) }
    {
        let end = match self.end_on(input, *ahead) {
            Ok(Some(end)) => end,
            Ok(None) => return Ok(None),
            Err(error) => return Err(error),
        };
        *ahead = None;
        if self.starts_at_span(input, &end) {
            return Ok(Some(match_from(input.start(), &end)));
        }
        with_start(&end, self.start_beside(input, end.offset(), ahead))
    }

    /// The forward search, gone on with from where it stands.
    fn end_on(
        &self,
        input: &Input<'_>,
        ahead: Option<Standpoint>,
    ) -> Result<Option<HalfMatch>, MatchError>
        requires fits { IsFit (query_of input.now) }
        requires ahead { IfSome ahead (λ s. IsUnderWay (A.table self.now.forward) (A.ids self.now.forward)
            Direction.Forward (query_of input.now) s.row s.at) }
        ensures answer { result ≡ half_unsplit (A.table self.now.forward) Direction.Forward (query_of input.now) }
        ensures within { IfOk result (λ found. IfSome found (λ h. IsInSpan (query_of input.now) h.offset)) }
    {
        match ahead {
            Some(s) => find_fwd_from(&self.forward, input, s.row, s.at),
            None => self.forward.try_search_fwd(input),
        }
    }

    /// The search in reverse for the start of a match with this end. The forward search of the rest goes on beside it,
    /// where both begin at rows that are not special.
    fn start_beside(
        &self,
        input: &Input<'_>,
        end: usize,
        ahead: &mut Option<Standpoint>,
    ) -> Result<Option<HalfMatch>, MatchError>
        requires fits { IsFit (query_of input.now) }
        requires in_span { IsInSpan (query_of input.now) end }
        requires none { ahead.old ≡ None }
        ensures answer { result
            ≡ half_unsplit (A.table self.now.reverse) Direction.Reverse (back_from (query_of input.now) end) }
        ensures within { IfOk result (λ found. IfSome found (λ h.
            IsInSpan (back_from (query_of input.now) end) h.offset)) }
        ensures ahead { IfSome ahead.new (λ s. IsUnderWay (A.table self.now.forward) (A.ids self.now.forward)
            Direction.Forward (record (query_of input.now) { start = end }) s.row s.at) }
    {
        let before = input_before(input, end);
        let after = input_after(input, end);
        let on = match begin(&self.forward, &after, Direction::Forward) {
            Some(on) => on,
            None => return self.reverse.try_search_rev(&before),
        };
        let back = match begin(&self.reverse, &before, Direction::Reverse) {
            Some(back) => back,
            None => return self.reverse.try_search_rev(&before),
        };
        let (on, back) = pass_both(&self.forward, &after, on, &self.reverse, &before, back);
        *ahead = Some(on);
        find_rev_from(&self.reverse, &before, back.row, back.at)
    }

    /// Whether a match with this end begins where the span does: it is empty there, the search is anchored, or every
    /// match begins at the edge of the haystack.
    fn starts_at_span(&self, input: &Input<'_>, end: &HalfMatch) -> bool
        ensures { let q = query_of input.now in
            result ≡ ((end.now.offset == q.start) || is_anchored q.mode
            || (A.table self.now.forward).is_always_start_anchored) }
    {
        end.offset() == input.start()
            || input.get_anchored().is_anchored()
            || self.forward.is_always_start_anchored()
    }
}

/// The match with this end, by what the search in reverse tells.
fn with_start(
    end: &HalfMatch,
    start: Result<Option<HalfMatch>, MatchError>,
) -> Result<Option<Match>, MatchError>
    requires { IfOk start (λ found. IfSome found (λ h. h.offset ≤ end.now.offset)) }
    ensures { result ≡ with_start end.now start }
{
    match start {
        Ok(Some(start)) if start.pattern() == end.pattern() => {
            Ok(Some(match_from(start.offset(), end)))
        }
        Ok(start) => Err(MatchError::new(MatchErrorKind::PairMismatch {
            forward: *end,
            reverse: start,
        })),
        Err(error) => Err(error),
    }
}

/// The match from a start to an end.
fn match_from(start: usize, end: &HalfMatch) -> Match
    requires { start ≤ end.now.offset }
    ensures { Ok (Some result) ≡ match_at end.now.pattern start end.now.offset }
{
    let span = Span {
        start,
        end: end.offset(),
    };
    Match::new(end.pattern(), span)
}

/// The input of the reverse search for the start of a match with this end.
fn input_before<'h>(input: &Input<'h>, end: usize) -> Input<'h>
    requires ordered { (query_of input.now).start ≤ end }
    requires within { end ≤ length (query_of input.now).haystack }
    ensures asked { query_of result ≡ back_from (query_of input.now) end }
    ensures fits { IsFit (query_of result) }
{
    Input::new(input.haystack())
        .range(input.start(), end)
        .anchored(Anchored::Yes)
}

/// The input of the forward search of the rest, behind a match with this end.
fn input_after<'h>(input: &Input<'h>, end: usize) -> Input<'h>
    requires ordered { (query_of input.now).start ≤ end }
    requires within { end ≤ (query_of input.now).end }
    requires fits { IsFit (query_of input.now) }
    ensures asked { query_of result ≡ record (query_of input.now) { start = end } }
    ensures fits { IsFit (query_of result) }
{
    Input::new(input.haystack())
        .range(end, input.end())
        .anchored(input.get_anchored())
        .earliest(input.get_earliest())
}
