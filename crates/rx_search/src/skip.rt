//! Skips from accelerated rows to the next needle.

ghost use Rattle.std.specs.Prelude.{◌≡◌, ◌<◌, ◌≤◌, length};
ghost use Rattle.rx_spec.specs.Bytes.{AreBytes};
ghost use Rattle.rx_spec.specs.Ids.{row_of};
ghost use Rattle.rx_base.specs.Input.{query_of};
ghost use Rattle.memchr.specs.Find.{IsLastByte};
ghost use Rattle.rx_search.specs.Needles.{is_needle, IsFirstNeedle, IsNextNeedle, Skips};
ghost use Rattle.rx_search.specs.Walks.{IsInSpan};

use crate::{Automaton, Cursor};
use memchr::{memchr, memchr2, memchr3, memrchr, memrchr2, memrchr3};
use rx_base::{Direction, Input};

/// To which offset a walk may pass from the cursor's row and an offset of the input's span, since the bytes
/// between lead the row to itself: that of the next needle, or the last one of the span. A row without needles
/// stays. `haystack` is the input's.
#[inline(always)]
pub(crate) fn skip<A: Automaton, L>(
    cursor: &Cursor<A, L>,
    haystack: &[u8],
    input: &Input<'_>,
    direction: Direction,
    from: usize,
) -> usize
    requires haystack { haystack.now ≡ (query_of input.now).haystack }
    requires in_span { IsInSpan (query_of input.now) from }
    requires within { (query_of input.now).end ≤ length (query_of input.now).haystack }
    ensures skips { Skips (A.table cursor.now.table) direction (query_of input.now)
        (row_of (A.ids cursor.now.table) cursor.now.row) from result }
    ensures bytes { AreBytes haystack.now }
{
    if !cursor.is_accel() {
        return from;
    }
    next_needle(
        cursor.needles().as_slice(),
        haystack,
        input,
        direction,
        from,
    )
}

/// The offset of the next needle from an offset on, or the last one of the span.
#[inline(always)]
fn next_needle(
    needles: &[u8],
    haystack: &[u8],
    input: &Input<'_>,
    direction: Direction,
    from: usize,
) -> usize
    requires few { length needles.now ≤ 3 }
    requires haystack { haystack.now ≡ (query_of input.now).haystack }
    requires in_span { IsInSpan (query_of input.now) from }
    requires within { (query_of input.now).end ≤ length (query_of input.now).haystack }
    ensures { IsNextNeedle needles.now direction (query_of input.now) from result }
{
    match direction {
        Direction::Forward => {
            let end = input.end();
            match first_needle(needles, &haystack[from..end]) {
                Some(at) => from + at,
                None => end,
            }
        }
        Direction::Reverse => {
            let start = input.start();
            match last_needle(needles, &haystack[start..from]) {
                Some(at) => start + at + 1,
                None => start,
            }
        }
    }
}

/// The place of the first byte of a haystack that is one of a row's needles, of which there are at most three. Where
/// the row has none, no byte is.
#[inline(always)]
pub fn first_needle(needles: &[u8], haystack: &[u8]) -> Option<usize>
    requires { length needles.now ≤ 3 }
    ensures { IsFirstNeedle needles.now haystack.now result }
{
    match needles {
        [a] => memchr(*a, haystack),
        [a, b] => memchr2(*a, *b, haystack),
        [a, b, c] => memchr3(*a, *b, *c, haystack),
        _ => None,
    }
}

/// The last place of one of at most three bytes.
#[inline(always)]
fn last_needle(needles: &[u8], haystack: &[u8]) -> Option<usize>
    requires { length needles.now ≤ 3 }
    ensures { IsLastByte (is_needle needles.now) haystack.now result }
{
    match needles {
        [a] => memrchr(*a, haystack),
        [a, b] => memrchr2(*a, *b, haystack),
        [a, b, c] => memrchr3(*a, *b, *c, haystack),
        _ => None,
    }
}
