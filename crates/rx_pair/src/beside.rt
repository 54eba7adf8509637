//! Walks beside each other: while the start of a match is sought in reverse, the forward search of the rest goes on.
//!
//! A walk over a table waits for one load a byte. Two walks that need nothing of each other wait together.

ghost use Rattle.std.specs.Prelude.{◌≡◌, ◌≢◌, false, IfSome};
ghost use Rattle.rx_spec.specs.HalfSearches.{next_offset};
ghost use Rattle.rx_spec.specs.Queries.{IsFit, is_done};
ghost use Rattle.rx_spec.specs.declared.Direction.TheVariants.{Forward, Reverse};
ghost use Rattle.rx_base.specs.Input.{query_of};
ghost use Rattle.rx_search.specs.Walks.{last_offset};
ghost use Rattle.rx_pair.specs.UnderWay.{IsUnderWay};

use rx_base::{Direction, Input, StateID};
use rx_search::Automaton;

/// Where a half search stands that told no match up to there: a row that is not special, and an offset.
#[derive(Clone, Copy, Debug)]
pub(crate) struct Standpoint {
    pub(crate) row: StateID,
    pub(crate) at: usize,
}

/// Where the half search of an input begins. There is no standpoint where its row is special or its start refused, or
/// where matches that split a character are passed over.
pub(crate) fn begin<A: Automaton>(
    dfa: &A,
    input: &Input<'_>,
    direction: Direction,
) -> Option<Standpoint>
    requires sound { A.IsSound dfa.now }
    requires fits { IsFit (query_of input.now) }
    requires open { is_done (query_of input.now) ≡ false }
    ensures { IfSome result (λ s.
        IsUnderWay (A.table dfa.now) (A.ids dfa.now) direction (query_of input.now) s.row s.at) }
{
    if dfa.has_empty() && dfa.is_utf8() {
        return None;
    }
    let (row, at) = match direction {
        Direction::Forward => (dfa.start_state_forward(input), input.start()),
        Direction::Reverse => (dfa.start_state_reverse(input), input.end()),
    };
    match row {
        Ok(row) if !dfa.is_special_state(row) => Some(Standpoint { row, at }),
        _ => None,
    }
}

/// Takes both half searches on by a byte each, as long as both come to rows that are not special.
#[inline(always)]
pub(crate) fn pass_both<A: Automaton>(
    forward: &A,
    after: &Input<'_>,
    on: Standpoint,
    reverse: &A,
    before: &Input<'_>,
    back: Standpoint,
) -> (Standpoint, Standpoint)
    requires forward_sound { A.IsSound forward.now }
    requires reverse_sound { A.IsSound reverse.now }
    requires after_fits { IsFit (query_of after.now) }
    requires before_fits { IsFit (query_of before.now) }
    requires on { IsUnderWay (A.table forward.now) (A.ids forward.now) Forward (query_of after.now) on.row on.at }
    requires back { IsUnderWay (A.table reverse.now) (A.ids reverse.now) Reverse (query_of before.now)
        back.row back.at }
    ensures on { IsUnderWay (A.table forward.now) (A.ids forward.now) Forward (query_of after.now)
        result.0.row result.0.at }
    ensures back { IsUnderWay (A.table reverse.now) (A.ids reverse.now) Reverse (query_of before.now)
        result.1.row result.1.at }
{
    let mut on = on;
    let mut back = back;
    'bytes: while on.at != after.end() && back.at != before.start() {
        let later = match step(forward, after, Direction::Forward, &on) {
            Some(later) => later,
            None => break,
        };
        let earlier = match step(reverse, before, Direction::Reverse, &back) {
            Some(earlier) => earlier,
            None => break,
        };
        on = later;
        back = earlier;
    }
    (on, back)
}

/// One byte further, unless that leads to a special row.
#[inline(always)]
fn step<A: Automaton>(
    dfa: &A,
    input: &Input<'_>,
    direction: Direction,
    from: &Standpoint,
) -> Option<Standpoint>
    requires sound { A.IsSound dfa.now }
    requires fits { IsFit (query_of input.now) }
    requires from { IsUnderWay (A.table dfa.now) (A.ids dfa.now) direction (query_of input.now)
        from.now.row from.now.at }
    requires more { from.now.at ≢ last_offset direction (query_of input.now) }
    ensures { IfSome result (λ s.
        IsUnderWay (A.table dfa.now) (A.ids dfa.now) direction (query_of input.now) s.row s.at
        × (s.at ≡ next_offset direction from.now.at)) }
{
    let haystack = input.haystack();
    let (byte, at) = match direction {
        Direction::Forward => (haystack[from.at], from.at + 1),
        Direction::Reverse => (haystack[from.at - 1], from.at - 1),
    };
    let row = dfa.next_state(from.row, byte);
    if dfa.is_special_state(row) {
        None
    } else {
        Some(Standpoint { row, at })
    }
}
