//! Walks over what is left of a span, from one match row to the next.
//!
//! One loop serves all searches in both directions. It is inlined where the direction is known.

ghost use Rattle.std.specs.Prelude.{◌≡◌, ◌≢◌, ◌+◌, ◌-◌, ◌<◌, ◌≤◌, ◌^◌, length};
ghost use Rattle.rx_spec.specs.HalfSearches.{first_offset, next_offset, unit_offset};
ghost use Rattle.rx_spec.specs.Ids.{row_of};
ghost use Rattle.rx_base.specs.Input.{query_of};
ghost use Rattle.rx_base.specs.Unit.{unit_number};
ghost use Rattle.rx_search.specs.Counted.{HasRoom, IsReady, counted, counted_on};
ghost use Rattle.rx_search.specs.Needles.{byte_ahead};
ghost use Rattle.rx_search.specs.Passing.{Passes};
ghost use Rattle.rx_search.specs.Walks.{IsInSpan, last_offset, units_left, unit_ahead, next_stop, StopsAt};

use crate::parts::ALONE;
use crate::skip::skip;
use crate::{Automaton, Cursor};
use rx_base::{Direction, Input, MatchError, Steps, Unit};

/// At how many places of a text a walk may read at once. What is read at several isn't counted.
#[derive(Clone, Copy, Debug)]
pub(crate) enum Places {
    One,
    Several,
}

/// Walks on from the cursor's row and an offset of the span to the next match row, and answers the offset of its
/// match, or none where the walk ends.
#[inline(always)]
pub(crate) fn next_match<A: Automaton, L>(
    cursor: &mut Cursor<A, L>,
    input: &Input<'_>,
    direction: Direction,
    from: usize,
    places: Places,
    steps: &mut Steps<L>,
) -> Result<Option<usize>, MatchError>
    requires in_span { IsInSpan (query_of input.now) from }
    requires within { (query_of input.now).end ≤ length (query_of input.now).haystack }
    requires room { HasRoom (A.table cursor.old.table) direction (query_of input.now)
        (row_of (A.ids cursor.old.table) cursor.old.row) from steps.old }
    ensures table { cursor.new.table ≡ cursor.old.table }
    ensures stop { let q = query_of input.now in
        let t = A.table cursor.old.table in
        StopsAt t direction q from (row_of (A.ids cursor.old.table) cursor.new.row)
        (next_stop t.machine direction (row_of (A.ids cursor.old.table) cursor.old.row)
        from (units_left direction q from))
        result }
    ensures counted { let q = query_of input.now in
        let t = A.table cursor.old.table in
        IsReady t direction q (row_of (A.ids cursor.old.table) cursor.old.row) from
        → steps.new + counted_on t direction q (row_of (A.ids cursor.old.table) cursor.new.row) result
        ≤ steps.old + counted t q.earliest (row_of (A.ids cursor.old.table) cursor.old.row)
        (units_left direction q from) }
{
    let haystack = input.haystack();
    let last = last_offset(input, direction);
    let mut at = from;
    let mut far = from.saturating_add(ALONE);
    'bytes: while at != last {
        let byte = byte_ahead(haystack, direction, at);
        cursor.advance(Unit::Byte(byte), steps);
        if !cursor.is_special() {
            let next = next_offset(direction, at);
            at = pass(cursor, haystack, input, direction, places, next, far);
            continue;
        }
        if cursor.is_match() {
            return Ok(Some(at));
        }
        if cursor.is_quit() {
            return Err(MatchError::quit(byte, unit_offset(direction, at)));
        }
        if cursor.is_dead() {
            return Ok(None);
        }
        at = skip(
            cursor,
            haystack,
            input,
            direction,
            next_offset(direction, at),
        );
        far = at.saturating_add(ALONE);
    }
    let unit = unit_ahead(haystack, direction, last);
    cursor.advance(unit, steps);
    if cursor.is_match() {
        return Ok(Some(last));
    }
    let byte = match unit {
        Unit::Byte(byte) => byte,
        Unit::Eoi => return Ok(None),
    };
    if cursor.is_quit() {
        return Err(MatchError::quit(byte, unit_offset(direction, last)));
    }
    Ok(None)
}

/// Passes on over bytes that lead to ordinary rows, once a forward walk that may read at several places has come to the
/// offset `far`. `haystack` is the input's.
#[inline(always)]
fn pass<A: Automaton, L>(
    cursor: &mut Cursor<A, L>,
    haystack: &[u8],
    input: &Input<'_>,
    direction: Direction,
    places: Places,
    from: usize,
    far: usize,
) -> usize
    requires haystack { haystack.now ≡ (query_of input.now).haystack }
    requires in_span { IsInSpan (query_of input.now) from }
    requires within { (query_of input.now).end ≤ length (query_of input.now).haystack }
    ensures table { cursor.new.table ≡ cursor.old.table }
    ensures passes { Passes (A.table cursor.old.table) direction (query_of input.now)
        (row_of (A.ids cursor.old.table) cursor.old.row) from
        (row_of (A.ids cursor.old.table) cursor.new.row) result }
{
    if from != far {
        return from;
    }
    match direction {
        Direction::Forward => match places {
            Places::Several => from + cursor.pass(haystack, from, input.end()),
            Places::One => from,
        },
        Direction::Reverse => from,
    }
}

/// The first offset of a walk over a span.
#[inline(always)]
pub(crate) fn first_offset(input: &Input<'_>, direction: Direction) -> usize
    ensures { result ≡ first_offset direction (query_of input.now) }
{
    match direction {
        Direction::Forward => input.start(),
        Direction::Reverse => input.end(),
    }
}

/// The last offset of a walk over a span, where no byte of the span is left.
#[inline(always)]
pub(crate) fn last_offset(input: &Input<'_>, direction: Direction) -> usize
    ensures { result ≡ last_offset direction (query_of input.now) }
{
    match direction {
        Direction::Forward => input.end(),
        Direction::Reverse => input.start(),
    }
}

/// The offset after the unit that is read next at an offset.
#[inline(always)]
pub(crate) fn next_offset(direction: Direction, offset: usize) -> usize
    requires { offset < 2 ^ 64 - 1 }
    ensures { result ≡ next_offset direction offset }
{
    match direction {
        Direction::Forward => offset + 1,
        Direction::Reverse => offset.saturating_sub(1),
    }
}

/// Where the unit stands that is read next at an offset.
#[inline(always)]
fn unit_offset(direction: Direction, offset: usize) -> usize
    ensures { result ≡ unit_offset direction offset }
{
    match direction {
        Direction::Forward => offset,
        Direction::Reverse => offset.saturating_sub(1),
    }
}

/// The byte that is read next at an offset of a haystack, which has one there.
#[inline(always)]
fn byte_ahead(haystack: &[u8], direction: Direction, offset: usize) -> u8
    requires { unit_offset direction offset < length haystack.now }
    ensures { result ≡ byte_ahead direction haystack.now offset }
{
    haystack[unit_offset(direction, offset)]
}

/// The unit that is read next at an offset of a haystack: a byte, or the end mark.
#[inline(always)]
fn unit_ahead(haystack: &[u8], direction: Direction, offset: usize) -> Unit
    ensures { unit_number result ≡ unit_ahead direction haystack.now offset }
{
    let at = match direction {
        Direction::Forward => offset,
        Direction::Reverse if offset == 0 => return Unit::Eoi,
        Direction::Reverse => offset - 1,
    };
    match haystack.get(at) {
        Some(byte) => Unit::Byte(*byte),
        None => Unit::Eoi,
    }
}
