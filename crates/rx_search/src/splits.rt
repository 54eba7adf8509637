//! Searches that pass over matches which split a character of UTF-8.

ghost use Rattle.std.specs.Prelude.{◌≡◌, ◌≤◌, ◌<◌, ◌+◌, ◌-◌, ◌^◌, length, Some, Ok, IfOk, IfSome};
ghost use Rattle.rx_spec.specs.HalfSearches.{HalfAnswer};
ghost use Rattle.rx_spec.specs.Queries.{Query, IsFit};
ghost use Rattle.rx_spec.specs.Splits.{half_unsplit, skips_splits, is_narrowest, narrower};
ghost use Rattle.rx_spec.specs.declared.Direction.TheVariants.{Forward, Reverse};
ghost use Rattle.rx_base.specs.Input.{query_of};
ghost use Rattle.rx_search.specs.SplitSearches.{unsplit_from};
ghost use Rattle.rx_search.specs.Walks.{IsInSpan};

use crate::Automaton;
use crate::half::{find_fwd, find_rev};
use rx_base::{Direction, HalfMatch, Input, MatchError, Span};

/// The end of the match that a forward search of an input tells, in UTF-8 mode where the table has it.
pub(crate) fn find_unsplit_fwd<A: Automaton>(
    dfa: &A,
    input: &Input<'_>,
) -> Result<Option<HalfMatch>, MatchError>
    requires sound { A.IsSound dfa.now }
    requires fits { IsFit (query_of input.now) }
    ensures answer { result ≡ half_unsplit (A.table dfa.now) Forward (query_of input.now) }
    ensures within { IfOk result (λ found. IfSome found (λ h. IsInSpan (query_of input.now) h.offset)) }
{
    let first = match find_fwd(dfa, input) {
        Ok(Some(first)) => first,
        Ok(None) => return Ok(None),
        Err(error) => return Err(error),
    };
    if !skips_splits(dfa) {
        return Ok(Some(first));
    }
    skip_splits_fwd(input, first, |input: &Input<'_>| find_fwd(dfa, input))
}

/// The start of the match that a search in reverse of an input tells, in UTF-8 mode where the table has it.
pub(crate) fn find_unsplit_rev<A: Automaton>(
    dfa: &A,
    input: &Input<'_>,
) -> Result<Option<HalfMatch>, MatchError>
    requires sound { A.IsSound dfa.now }
    requires fits { IsFit (query_of input.now) }
    ensures answer { result ≡ half_unsplit (A.table dfa.now) Reverse (query_of input.now) }
    ensures within { IfOk result (λ found. IfSome found (λ h. IsInSpan (query_of input.now) h.offset)) }
{
    let first = match find_rev(dfa, input) {
        Ok(Some(first)) => first,
        Ok(None) => return Ok(None),
        Err(error) => return Err(error),
    };
    if !skips_splits(dfa) {
        return Ok(Some(first));
    }
    skip_splits_rev(input, first, |input: &Input<'_>| find_rev(dfa, input))
}

/// Whether matches that split a character are passed over: no other match than one without a byte does.
pub(crate) fn skips_splits<A: Automaton>(dfa: &A) -> bool
    ensures { result ≡ skips_splits (A.table dfa.now) }
{
    dfa.has_empty() && dfa.is_utf8()
}

/// The answer of a forward search in UTF-8 mode whose first match is `first`: that match, unless it splits a
/// character; else none in an anchored search, and in another what `search` tells of the same input with the start
/// one higher, by the same rules.
///
/// `search` answers one fixed function of its input, which tells offsets within that input's span.
pub fn skip_splits_fwd<F: Fn(&Input<'_>) -> Result<Option<HalfMatch>, MatchError>>(
    input: &Input<'_>,
    first: HalfMatch,
    search: F,
) -> Result<Option<HalfMatch>, MatchError>
    requires fits { IsFit (query_of input.now) }
    requires first { IsInSpan (query_of input.now) first.offset }
    requires callable { (at : _) → IsFit (query_of at.now) → F.pre search at }
    requires within { (at : _) (h : _) → IsFit (query_of at.now) → F.post search at (Ok (Some h))
        → IsInSpan (query_of at.now) h.offset }
    ensures { (answers : Query → HalfAnswer)
        → ((at : _) (told : _) → IsFit (query_of at.now) → F.post search at told → told ≡ answers (query_of at.now))
        → result ≡ unsplit_from answers Forward (query_of input.now) first }
{
    skip_splits(input, first, Direction::Forward, search)
}

/// The same of a search in reverse, which is made again with the end one lower, and tells none where the end is 0.
pub fn skip_splits_rev<F: Fn(&Input<'_>) -> Result<Option<HalfMatch>, MatchError>>(
    input: &Input<'_>,
    first: HalfMatch,
    search: F,
) -> Result<Option<HalfMatch>, MatchError>
    requires fits { IsFit (query_of input.now) }
    requires first { IsInSpan (query_of input.now) first.offset }
    requires callable { (at : _) → IsFit (query_of at.now) → F.pre search at }
    requires within { (at : _) (h : _) → IsFit (query_of at.now) → F.post search at (Ok (Some h))
        → IsInSpan (query_of at.now) h.offset }
    ensures { (answers : Query → HalfAnswer)
        → ((at : _) (told : _) → IsFit (query_of at.now) → F.post search at told → told ≡ answers (query_of at.now))
        → result ≡ unsplit_from answers Reverse (query_of input.now) first }
{
    skip_splits(input, first, Direction::Reverse, search)
}

/// The same in a direction.
fn skip_splits<F: Fn(&Input<'_>) -> Result<Option<HalfMatch>, MatchError>>(
    input: &Input<'_>,
    first: HalfMatch,
    direction: Direction,
    search: F,
) -> Result<Option<HalfMatch>, MatchError>
    requires fits { IsFit (query_of input.now) }
    requires first { IsInSpan (query_of input.now) first.offset }
    requires callable { (at : _) → IsFit (query_of at.now) → F.pre search at }
    requires within { (at : _) (h : _) → IsFit (query_of at.now) → F.post search at (Ok (Some h))
        → IsInSpan (query_of at.now) h.offset }
    ensures { (answers : Query → HalfAnswer)
        → ((at : _) (told : _) → IsFit (query_of at.now) → F.post search at told → told ≡ answers (query_of at.now))
        → result ≡ unsplit_from answers direction (query_of input.now) first }
{
    let haystack = input.haystack();
    let mut span = input.get_span();
    let mut found = first;
    'splits: while !input.is_char_boundary(found.offset()) {
        if input.get_anchored().is_anchored() {
            return Ok(None);
        }
        if is_narrowest(direction, span) {
            return Ok(None);
        }
        span = narrower(direction, span);
        match search(&with_span(haystack, input, span)) {
            Ok(Some(next)) => found = next,
            Ok(None) => return Ok(None),
            Err(error) => return Err(error),
        }
    }
    Ok(Some(found))
}

/// Whether there is no narrower span: in reverse at the end 0.
fn is_narrowest(direction: Direction, span: Span) -> bool
    ensures { (q : Query) → result ≡ is_narrowest direction (record q { start = span.start; end = span.end }) }
{
    match direction {
        Direction::Forward => false,
        Direction::Reverse => span.end == 0,
    }
}

/// The span with the start one higher, in reverse with the end one lower.
fn narrower(direction: Direction, span: Span) -> Span
    requires { span.start < 2 ^ 64 - 1 }
    ensures { (q : Query) → record q { start = result.start; end = result.end }
        ≡ narrower direction (record q { start = span.start; end = span.end }) }
{
    match direction {
        Direction::Forward => Span {
            start: span.start + 1,
            ..span
        },
        Direction::Reverse => Span {
            end: span.end.saturating_sub(1),
            ..span
        },
    }
}

/// The same input with another span. `haystack` is the input's.
fn with_span<'h>(haystack: &'h [u8], input: &Input<'_>, span: Span) -> Input<'h>
    requires haystack { haystack.now ≡ (query_of input.now).haystack }
    requires within { span.end ≤ length haystack.now }
    requires ordered { span.start ≤ span.end + 1 }
    ensures { query_of result ≡ record (query_of input.now) { start = span.start; end = span.end } }
{
    Input::new(haystack)
        .span(span)
        .anchored(input.get_anchored())
        .earliest(input.get_earliest())
}
