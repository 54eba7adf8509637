//! Half searches: forward they tell the end of a match, in reverse its start.

ghost use Rattle.std.specs.Prelude.{◌≡◌, ◌+◌, ◌-◌, ◌<◌, ◌≤◌, ◌^◌, true, IfOk, IfSome, None};
ghost use Rattle.rx_spec.specs.HalfSearches.{half_search, units_of, walk};
ghost use Rattle.rx_spec.specs.Ids.{row_of};
ghost use Rattle.rx_spec.specs.Queries.{IsFit, is_done};
ghost use Rattle.rx_spec.specs.declared.Direction.TheVariants.{Forward, Reverse};
ghost use Rattle.rx_base.specs.Input.{query_of};
ghost use Rattle.rx_search.specs.Counted.{HasRoomFor, IsReady, counted};
ghost use Rattle.rx_search.specs.Starts.{IsId, IsStart};
ghost use Rattle.rx_search.specs.Walks.{previous_offset, units_left, IsInSpan};

use crate::cursor::start;
use crate::skip::skip;
use crate::walk::{Places, first_offset, last_offset, next_match, next_offset};
use crate::{Automaton, Cursor};
use rx_base::{Direction, HalfMatch, Input, MatchError, StateID, Steps, Tally};

/// The shortest span, in bytes, that a forward search may read at several places at once.
const FAR: usize = 8192;

/// The end of the match that a forward search of an input tells, without UTF-8 mode.
///
/// It may read a long text at several places at once; the answer is that of the walk that reads byte by byte.
#[inline]
pub fn find_fwd<A: Automaton>(dfa: &A, input: &Input<'_>) -> Result<Option<HalfMatch>, MatchError>
    requires sound { A.IsSound dfa.now }
    requires fits { IsFit (query_of input.now) }
    ensures answer { result
        ≡ half_search (A.table dfa.now).machine (A.table dfa.now).settings Forward (query_of input.now) }
    // What is told lies in the span.
    ensures within { IfOk result (λ found. IfSome found (λ h. IsInSpan (query_of input.now) h.offset)) }
{
    if !dfa.prefers_several_places() || input.end().saturating_sub(input.start()) < FAR {
        return find_near(dfa, input);
    }
    find_far(dfa, input)
}

/// The start of the match that a search in reverse of an input tells, without UTF-8 mode.
#[inline]
pub fn find_rev<A: Automaton>(dfa: &A, input: &Input<'_>) -> Result<Option<HalfMatch>, MatchError>
    requires sound { A.IsSound dfa.now }
    requires fits { IsFit (query_of input.now) }
    ensures answer { result
        ≡ half_search (A.table dfa.now).machine (A.table dfa.now).settings Reverse (query_of input.now) }
    // What is told lies in the span.
    ensures within { IfOk result (λ found. IfSome found (λ h. IsInSpan (query_of input.now) h.offset)) }
{
    find(dfa, input, Direction::Reverse, Places::One)
}

/// The rest of a forward search from a row and an offset of the span, up to which it told no match.
///
/// It may read a long text at several places at once, as [`find_fwd`] may.
#[inline]
pub fn find_fwd_from<A: Automaton>(
    dfa: &A,
    input: &Input<'_>,
    row: StateID,
    at: usize,
) -> Result<Option<HalfMatch>, MatchError>
    requires sound { A.IsSound dfa.now }
    requires is_id { IsId (A.ids dfa.now) row }
    requires fits { IsFit (query_of input.now) }
    requires in_span { IsInSpan (query_of input.now) at }
    requires ready { IsReady (A.table dfa.now) Forward (query_of input.now) (row_of (A.ids dfa.now) row) at }
    ensures { let q = query_of input.now in
        result ≡ walk (A.table dfa.now).machine Forward q.earliest (row_of (A.ids dfa.now) row) at None
        (units_left Forward q at) }
{
    if dfa.prefers_several_places() && input.end().saturating_sub(at) >= FAR {
        return find_far_from(dfa, input, row, at);
    }
    find_from(dfa, input, Direction::Forward, row, at, Places::One)
}

/// The rest of a search in reverse from a row and an offset of the span, up to which it told no match.
#[inline]
pub fn find_rev_from<A: Automaton>(
    dfa: &A,
    input: &Input<'_>,
    row: StateID,
    at: usize,
) -> Result<Option<HalfMatch>, MatchError>
    requires sound { A.IsSound dfa.now }
    requires is_id { IsId (A.ids dfa.now) row }
    requires fits { IsFit (query_of input.now) }
    requires in_span { IsInSpan (query_of input.now) at }
    requires ready { IsReady (A.table dfa.now) Reverse (query_of input.now) (row_of (A.ids dfa.now) row) at }
    ensures { let q = query_of input.now in
        result ≡ walk (A.table dfa.now).machine Reverse q.earliest (row_of (A.ids dfa.now) row) at None
        (units_left Reverse q at) }
{
    find_from(dfa, input, Direction::Reverse, row, at, Places::One)
}

/// The forward search at one place.
#[inline(never)]
fn find_near<A: Automaton>(dfa: &A, input: &Input<'_>) -> Result<Option<HalfMatch>, MatchError>
    requires sound { A.IsSound dfa.now }
    requires fits { IsFit (query_of input.now) }
    ensures answer { result
        ≡ half_search (A.table dfa.now).machine (A.table dfa.now).settings Forward (query_of input.now) }
    ensures within { IfOk result (λ found. IfSome found (λ h. IsInSpan (query_of input.now) h.offset)) }
{
    find(dfa, input, Direction::Forward, Places::One)
}

/// The forward search at several places. It is a function of its own, so that the loop of [`find_near`] stays short.
#[inline(never)]
fn find_far<A: Automaton>(dfa: &A, input: &Input<'_>) -> Result<Option<HalfMatch>, MatchError>
    requires sound { A.IsSound dfa.now }
    requires fits { IsFit (query_of input.now) }
    ensures answer { result
        ≡ half_search (A.table dfa.now).machine (A.table dfa.now).settings Forward (query_of input.now) }
    ensures within { IfOk result (λ found. IfSome found (λ h. IsInSpan (query_of input.now) h.offset)) }
{
    find(dfa, input, Direction::Forward, Places::Several)
}

/// The rest of a forward search at several places, in a function of its own as [`find_far`] is.
#[inline(never)]
fn find_far_from<A: Automaton>(
    dfa: &A,
    input: &Input<'_>,
    row: StateID,
    at: usize,
) -> Result<Option<HalfMatch>, MatchError>
    requires sound { A.IsSound dfa.now }
    requires is_id { IsId (A.ids dfa.now) row }
    requires fits { IsFit (query_of input.now) }
    requires in_span { IsInSpan (query_of input.now) at }
    requires ready { IsReady (A.table dfa.now) Forward (query_of input.now) (row_of (A.ids dfa.now) row) at }
    ensures { let q = query_of input.now in
        result ≡ walk (A.table dfa.now).machine Forward q.earliest (row_of (A.ids dfa.now) row) at None
        (units_left Forward q at) }
{
    find_from(dfa, input, Direction::Forward, row, at, Places::Several)
}

/// The rest of the half search of an input in a direction, from a row and an offset of the span.
#[inline(always)]
fn find_from<A: Automaton>(
    dfa: &A,
    input: &Input<'_>,
    direction: Direction,
    row: StateID,
    at: usize,
    places: Places,
) -> Result<Option<HalfMatch>, MatchError>
    requires sound { A.IsSound dfa.now }
    requires is_id { IsId (A.ids dfa.now) row }
    requires fits { IsFit (query_of input.now) }
    requires in_span { IsInSpan (query_of input.now) at }
    requires ready { IsReady (A.table dfa.now) direction (query_of input.now) (row_of (A.ids dfa.now) row) at }
    ensures { let q = query_of input.now in
        result ≡ walk (A.table dfa.now).machine direction q.earliest (row_of (A.ids dfa.now) row) at None
        (units_left direction q at) }
{
    let mut cursor = Cursor::<&A, Tally>::at(dfa, row);
    let mut steps = Steps::new(Tally);
    search_on(&mut cursor, input, direction, at, places, &mut steps)
}

/// The half search of an input in a direction.
#[inline(always)]
fn find<A: Automaton>(
    dfa: &A,
    input: &Input<'_>,
    direction: Direction,
    places: Places,
) -> Result<Option<HalfMatch>, MatchError>
    requires sound { A.IsSound dfa.now }
    requires fits { IsFit (query_of input.now) }
    ensures answer { result
        ≡ half_search (A.table dfa.now).machine (A.table dfa.now).settings direction (query_of input.now) }
    ensures within { IfOk result (λ found. IfSome found (λ h. IsInSpan (query_of input.now) h.offset)) }
{
    if input.is_done() {
        return Ok(None);
    }
    match start(dfa, input, direction) {
        Err(error) => Err(error),
        Ok(cursor) => {
            let mut cursor = cursor;
            let mut steps = Steps::new(Tally);
            half_search(&mut cursor, input, direction, places, &mut steps)
        }
    }
}

/// The same as [`find_fwd`], from a cursor that [`Cursor::forward`] made for this input.
///
/// Its ticks are at most the number of units that count of those that it reads: the bytes of the span that are
/// read from a row without needles or that are a needle of their row, and the unit past the span. The counter must
/// have room for so many. The cursor keeps its table and stands where the walk stopped; another search takes a new
/// one. It answers no other error than a quit byte.
#[inline(always)]
pub fn find_fwd_counted<A: Automaton, L>(
    cursor: &mut Cursor<A, L>,
    input: &Input<'_>,
    steps: &mut Steps<L>,
) -> Result<Option<HalfMatch>, MatchError>
    requires fits { IsFit (query_of input.now) }
    requires room { HasRoomFor (A.table cursor.old.table) Forward (query_of input.now)
        (row_of (A.ids cursor.old.table) cursor.old.row) steps.old }
    requires fresh { let t = A.table cursor.old.table in
        IsStart t Forward (query_of input.now) (row_of (A.ids cursor.old.table) cursor.old.row) }
    ensures answer { let t = A.table cursor.old.table in
        result ≡ half_search t.machine t.settings Forward (query_of input.now) }
    // What is told lies in the span.
    ensures within { IfOk result (λ found. IfSome found (λ h. IsInSpan (query_of input.now) h.offset)) }
    ensures counted { let q = query_of input.now in
        let t = A.table cursor.old.table in
        let row = row_of (A.ids cursor.old.table) cursor.old.row in
        steps.new ≤ steps.old + counted t q.earliest row (units_of Forward q) }
    ensures table { cursor.new.table ≡ cursor.old.table }
    ensures done { is_done (query_of input.now) ≡ true → steps.new ≡ steps.old }
{
    half_search(cursor, input, Direction::Forward, Places::One, steps)
}

/// The same as [`find_rev`], from a cursor that [`Cursor::reverse`] made for this input. Its ticks are bounded as
/// those of [`find_fwd_counted`], and its cursor is left as there.
#[inline(always)]
pub fn find_rev_counted<A: Automaton, L>(
    cursor: &mut Cursor<A, L>,
    input: &Input<'_>,
    steps: &mut Steps<L>,
) -> Result<Option<HalfMatch>, MatchError>
    requires fits { IsFit (query_of input.now) }
    requires room { HasRoomFor (A.table cursor.old.table) Reverse (query_of input.now)
        (row_of (A.ids cursor.old.table) cursor.old.row) steps.old }
    requires fresh { let t = A.table cursor.old.table in
        IsStart t Reverse (query_of input.now) (row_of (A.ids cursor.old.table) cursor.old.row) }
    ensures answer { let t = A.table cursor.old.table in
        result ≡ half_search t.machine t.settings Reverse (query_of input.now) }
    // What is told lies in the span.
    ensures within { IfOk result (λ found. IfSome found (λ h. IsInSpan (query_of input.now) h.offset)) }
    ensures counted { let q = query_of input.now in
        let t = A.table cursor.old.table in
        let row = row_of (A.ids cursor.old.table) cursor.old.row in
        steps.new ≤ steps.old + counted t q.earliest row (units_of Reverse q) }
    ensures table { cursor.new.table ≡ cursor.old.table }
    ensures done { is_done (query_of input.now) ≡ true → steps.new ≡ steps.old }
{
    half_search(cursor, input, Direction::Reverse, Places::One, steps)
}

/// The half search in a direction, from the row where it starts.
#[inline(always)]
fn half_search<A: Automaton, L>(
    cursor: &mut Cursor<A, L>,
    input: &Input<'_>,
    direction: Direction,
    places: Places,
    steps: &mut Steps<L>,
) -> Result<Option<HalfMatch>, MatchError>
    requires fits { IsFit (query_of input.now) }
    requires room { let q = query_of input.now in
        let t = A.table cursor.old.table in
        let row = row_of (A.ids cursor.old.table) cursor.old.row in
        steps.old + counted t q.earliest row (units_of direction q) < 2 ^ 64 }
    requires fresh { let t = A.table cursor.old.table in
        IsStart t direction (query_of input.now) (row_of (A.ids cursor.old.table) cursor.old.row) }
    ensures answer { let t = A.table cursor.old.table in
        result ≡ half_search t.machine t.settings direction (query_of input.now) }
    // What is told lies in the span.
    ensures within { IfOk result (λ found. IfSome found (λ h. IsInSpan (query_of input.now) h.offset)) }
    ensures counted { let q = query_of input.now in
        let t = A.table cursor.old.table in
        let row = row_of (A.ids cursor.old.table) cursor.old.row in
        steps.new ≤ steps.old + counted t q.earliest row (units_of direction q) }
    ensures table { cursor.new.table ≡ cursor.old.table }
    ensures done { is_done (query_of input.now) ≡ true → steps.new ≡ steps.old }
{
    if input.is_done() {
        return Ok(None);
    }
    let from = skip(
        cursor,
        input.haystack(),
        input,
        direction,
        first_offset(input, direction),
    );
    search_on(cursor, input, direction, from, places, steps)
}

/// The rest of a half search from the cursor's row and an offset of the span, up to which it told no match.
#[inline(always)]
fn search_on<A: Automaton, L>(
    cursor: &mut Cursor<A, L>,
    input: &Input<'_>,
    direction: Direction,
    from: usize,
    places: Places,
    steps: &mut Steps<L>,
) -> Result<Option<HalfMatch>, MatchError>
    requires fits { IsFit (query_of input.now) }
    requires in_span { IsInSpan (query_of input.now) from }
    requires ready { IsReady (A.table cursor.old.table) direction (query_of input.now)
        (row_of (A.ids cursor.old.table) cursor.old.row) from }
    requires room { let q = query_of input.now in
        let t = A.table cursor.old.table in
        let row = row_of (A.ids cursor.old.table) cursor.old.row in
        steps.old + counted t q.earliest row (units_left direction q from) < 2 ^ 64 }
    ensures answer { let q = query_of input.now in
        let m = (A.table cursor.old.table).machine in
        let row = row_of (A.ids cursor.old.table) cursor.old.row in
        result ≡ walk m direction q.earliest row from None (units_left direction q from) }
    ensures counted { let q = query_of input.now in
        let t = A.table cursor.old.table in
        let row = row_of (A.ids cursor.old.table) cursor.old.row in
        steps.new ≤ steps.old + counted t q.earliest row (units_left direction q from) }
    ensures table { cursor.new.table ≡ cursor.old.table }
{
    let haystack = input.haystack();
    let mut at = from;
    let mut last = None;
    'matches: loop {
        let offset = match next_match(cursor, input, direction, at, places, steps) {
            Ok(Some(offset)) => offset,
            Ok(None) => return Ok(last),
            Err(error) => return Err(error),
        };
        let pattern = cursor.pattern(0);
        if input.get_earliest() {
            return Ok(Some(HalfMatch::new(pattern, offset)));
        }
        if offset == last_offset(input, direction) {
            return Ok(Some(HalfMatch::new(pattern, offset)));
        }
        if cursor.is_final_match() {
            return Ok(Some(HalfMatch::new(pattern, offset)));
        }
        at = skip(
            cursor,
            haystack,
            input,
            direction,
            next_offset(direction, offset),
        );
        last = Some(HalfMatch::new(pattern, previous_offset(direction, at)));
    }
}

/// The offset before the unit that was read last at an offset.
#[inline(always)]
fn previous_offset(direction: Direction, offset: usize) -> usize
    requires { offset < 2 ^ 64 - 1 }
    ensures { result ≡ previous_offset direction offset }
{
    match direction {
        Direction::Forward => offset.saturating_sub(1),
        Direction::Reverse => offset + 1,
    }
}
