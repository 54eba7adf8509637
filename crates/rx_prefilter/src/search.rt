//! The search that looks for a literal first.

ghost use Rattle.std.specs.Prelude.{◌≡◌, ◌≤◌, ◌-◌, false, IfOk, IfSome, drop, length, take};
ghost use Rattle.memchr.specs.Find.{FindsNeedle};
ghost use Rattle.rx_spec.specs.Bytes.{AreBytes};
ghost use Rattle.rx_spec.specs.Ids.{row_of};
ghost use Rattle.rx_spec.specs.Joining.{join};
ghost use Rattle.rx_spec.specs.Machines.{Label};
ghost use Rattle.rx_spec.specs.Queries.{IsFit};
ghost use Rattle.rx_spec.specs.Splits.{half_unsplit};
ghost use Rattle.rx_spec.specs.declared.Direction.TheVariants.{Forward};
ghost use Rattle.rx_base.specs.Input.{query_of};
ghost use Rattle.rx_search.specs.Walks.{IsInSpan};
ghost use Rattle.rx_prefilter.specs.Literals.{BeginsAll, IsPassed, IsStopped};

use crate::literal::{Literal, literal_from};
use memchr::memmem::Finder;
use rx_base::{HalfMatch, Input, Match, MatchError, StateID};
use rx_pair::Regex;
use rx_search::{Automaton, find_fwd_from};
use std::alloc::{AllocError, Global};

/// The shortest span, in bytes, for which a literal is read off the table.
const FAR: usize = 1 << 16;

/// What a search gives.
pub type Answer = Result<Option<Match>, MatchError>;

/// How a walk went on behind a literal.
#[derive(Clone, Copy, Debug)]
enum Passed {
    /// It is back in the row where it started, at this offset.
    Back(usize),
    /// It stands in this row, at this offset, and may go on to a special row.
    Stopped(StateID, usize),
}

/// The leftmost match of an input, as [`Regex::try_search`] returns it.
///
/// Over a span of 64 KiB or more, a literal of two bytes or more with which each match begins is looked for first. This
/// changes no answer. For it, all transitions of the states on the literal's way are read twice.
pub fn try_search<A: Automaton>(
    alloc: Global,
    regex: &Regex<A>,
    input: &Input<'_>,
) -> Result<Answer, AllocError>
    requires { IsFit (query_of input.now) }
    ensures { IfOk result (λ answer. answer
        ≡ join (A.table regex.now.forward) (A.table regex.now.reverse) (query_of input.now)) }
{
    let forward = regex.forward();
    let Some(literal) = literal_of(alloc, forward, input)? else {
        return Ok(regex.try_search(input));
    };
    match search_by(forward, &literal, input) {
        Ok(Some(end)) => Ok(regex.match_with_end(input, &end)),
        Ok(None) => Ok(Ok(None)),
        Err(error) => Ok(Err(error)),
    }
}

/// The literal with which each match of an input begins, if its span is long and there is one.
fn literal_of<A: Automaton>(
    alloc: Global,
    dfa: &A,
    input: &Input<'_>,
) -> Result<Option<Literal>, AllocError>
    requires { A.IsSound dfa.now }
    ensures { IfOk result (λ found. IfSome found
        (BeginsAll (A.table dfa.now) (A.ids dfa.now) (query_of input.now))) }
{
    if input.end().saturating_sub(input.start()) < FAR || (dfa.has_empty() && dfa.is_utf8()) {
        return Ok(None);
    }
    match dfa.start_state_forward(input) {
        Ok(start) => literal_from(alloc, dfa, start),
        Err(_) => Ok(None),
    }
}

/// The end of the match that a forward search tells, by a literal with which each match begins.
fn search_by<A: Automaton>(
    dfa: &A,
    literal: &Literal,
    input: &Input<'_>,
) -> Result<Option<HalfMatch>, MatchError>
    requires sound { A.IsSound dfa.now }
    requires fits { IsFit (query_of input.now) }
    requires literal { BeginsAll (A.table dfa.now) (A.ids dfa.now) (query_of input.now) literal.now }
    ensures answer { result ≡ half_unsplit (A.table dfa.now) Forward (query_of input.now) }
    ensures within { IfOk result (λ found. IfSome found (λ h. IsInSpan (query_of input.now) h.offset)) }
{
    let finder = Finder::new(&literal.bytes);
    let (start, before) = (literal.rows[0], literal.bytes.len() - 1);
    let mut at = input.start();
    'literals: loop {
        let Some(place) = next_place(&finder, input.haystack(), at, input.end()) else {
            return Ok(None);
        };
        match pass(dfa, input, start, literal.rows[before], at + place + before) {
            Passed::Back(offset) => at = offset,
            Passed::Stopped(row, offset) => return find_fwd_from(dfa, input, row, offset),
        }
    }
}

/// How many bytes after an offset the literal next occurs, in what is left of a span.
fn next_place(finder: &Finder<'_>, haystack: &[u8], at: usize, end: usize) -> Option<usize>
    requires ordered { at ≤ end }
    requires within { end ≤ length haystack.now }
    ensures place { FindsNeedle (take (end - at) (drop at haystack.now)) finder.now 0 result }
    ensures bytes { AreBytes haystack.now }
{
    finder.find(&haystack[at..end])
}

/// Walks on from a row and an offset, up to where the walk is back in the row where it started or the next row is
/// special.
fn pass<A: Automaton>(
    dfa: &A,
    input: &Input<'_>,
    start: StateID,
    first: StateID,
    from: usize,
) -> Passed
    requires sound { A.IsSound dfa.now }
    requires fits { IsFit (query_of input.now) }
    requires plain { (A.table dfa.now).machine.label (row_of (A.ids dfa.now) start) ≡ Label.Plain }
    requires alive { (A.table dfa.now).machine.is_dead (row_of (A.ids dfa.now) start) ≡ false }
    requires stopped { IsStopped (A.table dfa.now) (A.ids dfa.now) (query_of input.now) first from }
    ensures { IsPassed (A.table dfa.now) (A.ids dfa.now) (query_of input.now) start from result }
{
    let (mut row, mut at) = (first, from);
    'bytes: while at != input.end() {
        let next = dfa.next_state(row, input.haystack()[at]);
        if next == start {
            return Passed::Back(at + 1);
        }
        if dfa.is_special_state(next) {
            break;
        }
        row = next;
        at += 1;
    }
    Passed::Stopped(row, at)
}
