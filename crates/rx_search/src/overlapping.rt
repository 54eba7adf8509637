//! Overlapping searches: they tell every pattern of every match row, one in each call.

ghost use Rattle.std.specs.Prelude.{◌≡◌, ◌≤◌, ◌<◌, length, None, IfSome, MatchResult};
ghost use Rattle.rx_spec.specs.Ids.{row_of};
ghost use Rattle.rx_spec.specs.Overlapping.{overlapping, overlapping_walk};
ghost use Rattle.rx_spec.specs.Queries.{IsFit};
ghost use Rattle.rx_spec.specs.declared.Direction.TheVariants.{Forward, Reverse};
ghost use Rattle.rx_base.specs.Input.{query_of};
ghost use Rattle.rx_search.specs.declared.overlapping.Stage.TheVariants.{Fresh, Met};
ghost use Rattle.rx_search.specs.OverlappingCalls.{IsMatchRow, Fits, remaining_at, remaining_matches, next_call};
ghost use Rattle.rx_search.specs.OverlappingCalls.{IsTold};
ghost use Rattle.rx_search.specs.SplitSearches.{remaining_unsplit};
ghost use Rattle.rx_search.specs.Starts.{IsStart, IsRefused};
ghost use Rattle.rx_search.specs.Walks.{IsInSpan, units_left};

use crate::cursor::start;
use crate::skip::skip;
use crate::splits::skips_splits;
use crate::walk::{first_offset, last_offset, next_match, next_offset};
use crate::{Automaton, Cursor};
use rx_base::{Direction, HalfMatch, Input, MatchError, StateID, Steps, Tally};

/// How far an overlapping search has come, which goes on where the last call stopped.
///
/// A state fits the search of an input where it is fresh, or where calls of the same search left it. A search
/// that has told its last match tells none from then on.
#[derive(Clone, Debug, Drop, PartialEq, Eq)]
pub struct OverlappingState {
    told: Option<HalfMatch>,
    stage: Stage,
}

/// Where an overlapping search stands.
#[derive(Clone, Copy, Debug, PartialEq, Eq)]
enum Stage {
    /// Before its start.
    Fresh,
    /// At a match row.
    Met(MetRow),
    /// At its end.
    Ended,
}

/// A match row that was met at an offset, with so many of its patterns told.
#[derive(Clone, Copy, Debug, PartialEq, Eq)]
struct MetRow {
    row: StateID,
    offset: usize,
    told: usize,
}

impl OverlappingState {
    /// Before the first call.
    pub fn start() -> OverlappingState
        ensures told { result.told ≡ None }
        ensures fresh { result.stage ≡ Fresh }
    {
        OverlappingState {
            told: None,
            stage: Stage::Fresh,
        }
    }

    /// What the last call told.
    pub fn get_match(&self) -> Option<HalfMatch>
        ensures { result ≡ self.now.told }
    {
        self.told
    }
}

/// Tells the next match of a forward overlapping search of an input, if there is one more, without UTF-8 mode.
pub fn find_overlapping_fwd<A: Automaton>(
    dfa: &A,
    input: &Input<'_>,
    state: &mut OverlappingState,
) -> Result<(), MatchError>
    requires sound { A.IsSound dfa.now }
    requires fits { IsFit (query_of input.now) }
    requires state { Fits (A.table dfa.now) (A.ids dfa.now) (query_of input.now) state.old }
    ensures state { Fits (A.table dfa.now) (A.ids dfa.now) (query_of input.now) state.new }
    ensures told { IfSome state.new.told (IsTold (A.table dfa.now) (query_of input.now)) }
    ensures call { record {
      result = result;
      told = state.new.told;
      left = remaining_matches (A.table dfa.now) (A.ids dfa.now) Forward (query_of input.now) state.new;
    } ≡ next_call (remaining_matches (A.table dfa.now) (A.ids dfa.now) Forward (query_of input.now) state.old) }
{
    overlapping_search(dfa, input, Direction::Forward, state)
}

/// Tells the next match of an overlapping search of an input in reverse, if there is one more, without UTF-8
/// mode.
pub fn find_overlapping_rev<A: Automaton>(
    dfa: &A,
    input: &Input<'_>,
    state: &mut OverlappingState,
) -> Result<(), MatchError>
    requires sound { A.IsSound dfa.now }
    requires fits { IsFit (query_of input.now) }
    requires state { Fits (A.table dfa.now) (A.ids dfa.now) (query_of input.now) state.old }
    ensures state { Fits (A.table dfa.now) (A.ids dfa.now) (query_of input.now) state.new }
    ensures told { IfSome state.new.told (IsTold (A.table dfa.now) (query_of input.now)) }
    ensures call { record {
      result = result;
      told = state.new.told;
      left = remaining_matches (A.table dfa.now) (A.ids dfa.now) Reverse (query_of input.now) state.new;
    } ≡ next_call (remaining_matches (A.table dfa.now) (A.ids dfa.now) Reverse (query_of input.now) state.old) }
{
    overlapping_search(dfa, input, Direction::Reverse, state)
}

/// Tells the next match of an overlapping search in a direction, in UTF-8 mode where the table has it.
pub(crate) fn find_overlapping_unsplit<A: Automaton>(
    dfa: &A,
    input: &Input<'_>,
    direction: Direction,
    state: &mut OverlappingState,
) -> Result<(), MatchError>
    requires sound { A.IsSound dfa.now }
    requires fits { IsFit (query_of input.now) }
    requires state { Fits (A.table dfa.now) (A.ids dfa.now) (query_of input.now) state.old }
    ensures state { Fits (A.table dfa.now) (A.ids dfa.now) (query_of input.now) state.new }
    ensures told { IfSome state.new.told (IsTold (A.table dfa.now) (query_of input.now)) }
    ensures call { record {
      result = result;
      told = state.new.told;
      left = remaining_unsplit (A.table dfa.now) (A.ids dfa.now) direction (query_of input.now) state.new;
    } ≡ next_call (remaining_unsplit (A.table dfa.now) (A.ids dfa.now) direction (query_of input.now) state.old) }
{
    'splits: loop {
        match overlapping_search(dfa, input, direction, state) {
            Ok(()) => {}
            Err(error) => return Err(error),
        }
        let found = match state.told {
            Some(found) => found,
            None => return Ok(()),
        };
        if !skips_splits(dfa) {
            return Ok(());
        }
        if input.is_char_boundary(found.offset()) {
            return Ok(());
        }
        if input.get_anchored().is_anchored() {
            state.told = None;
            return Ok(());
        }
    }
}

/// Tells the next match of an overlapping search in a direction.
#[inline(always)]
fn overlapping_search<A: Automaton>(
    dfa: &A,
    input: &Input<'_>,
    direction: Direction,
    state: &mut OverlappingState,
) -> Result<(), MatchError>
    requires sound { A.IsSound dfa.now }
    requires fits { IsFit (query_of input.now) }
    requires state { Fits (A.table dfa.now) (A.ids dfa.now) (query_of input.now) state.old }
    ensures state { Fits (A.table dfa.now) (A.ids dfa.now) (query_of input.now) state.new }
    ensures told { IfSome state.new.told (IsTold (A.table dfa.now) (query_of input.now)) }
    ensures call { record {
      result = result;
      told = state.new.told;
      left = remaining_matches (A.table dfa.now) (A.ids dfa.now) direction (query_of input.now) state.new;
    } ≡ next_call (remaining_matches (A.table dfa.now) (A.ids dfa.now) direction (query_of input.now) state.old) }
{
    state.told = None;
    match state.stage {
        Stage::Ended => Ok(()),
        Stage::Fresh => tell_first(dfa, input, direction, state),
        Stage::Met(met) => tell_more(dfa, input, direction, met, state),
    }
}

/// Tells the first match, from the start of the search.
#[inline(always)]
fn tell_first<A: Automaton>(
    dfa: &A,
    input: &Input<'_>,
    direction: Direction,
    state: &mut OverlappingState,
) -> Result<(), MatchError>
    requires sound { A.IsSound dfa.now }
    requires fits { IsFit (query_of input.now) }
    requires none { state.old.told ≡ None }
    requires fresh { state.old.stage ≡ Fresh }
    ensures state { Fits (A.table dfa.now) (A.ids dfa.now) (query_of input.now) state.new }
    ensures told { IfSome state.new.told (IsTold (A.table dfa.now) (query_of input.now)) }
    ensures call { record {
      result = result;
      told = state.new.told;
      left = remaining_matches (A.table dfa.now) (A.ids dfa.now) direction (query_of input.now) state.new;
    } ≡ next_call (overlapping (A.table dfa.now).machine (A.table dfa.now).settings direction (query_of input.now)) }
{
    if input.is_done() {
        return Ok(());
    }
    match start(dfa, input, direction) {
        Err(error) => Err(error),
        Ok(cursor) => {
            let mut cursor = cursor;
            let haystack = input.haystack();
            let first = first_offset(input, direction);
            let at = skip(&cursor, haystack, input, direction, first);
            tell_next(&mut cursor, input, direction, at, state)
        }
    }
}

/// Tells the next pattern of a match row, or the first one of the next match row.
#[inline(always)]
fn tell_more<A: Automaton>(
    dfa: &A,
    input: &Input<'_>,
    direction: Direction,
    met: MetRow,
    state: &mut OverlappingState,
) -> Result<(), MatchError>
    requires sound { A.IsSound dfa.now }
    requires fits { IsFit (query_of input.now) }
    requires none { state.old.told ≡ None }
    requires met { IsMatchRow (A.table dfa.now) (A.ids dfa.now) (query_of input.now) met }
    ensures state { Fits (A.table dfa.now) (A.ids dfa.now) (query_of input.now) state.new }
    ensures told { IfSome state.new.told (IsTold (A.table dfa.now) (query_of input.now)) }
    ensures call { record {
      result = result;
      told = state.new.told;
      left = remaining_matches (A.table dfa.now) (A.ids dfa.now) direction (query_of input.now) state.new;
    } ≡ next_call (remaining_at (A.table dfa.now) (A.ids dfa.now) direction (query_of input.now) (Met met)) }
{
    let mut cursor = Cursor::<&A, Tally>::at(dfa, met.row);
    if met.told < cursor.match_len() {
        state.told = Some(HalfMatch::new(cursor.pattern(met.told), met.offset));
        state.stage = Stage::Met(MetRow {
            told: met.told + 1,
            ..met
        });
        return Ok(());
    }
    if met.offset == last_offset(input, direction) {
        state.stage = Stage::Ended;
        return Ok(());
    }
    let at = next_offset(direction, met.offset);
    tell_next(&mut cursor, input, direction, at, state)
}

/// Walks on from the cursor's row and an offset of the span, and tells the first pattern of the next match row.
#[inline(always)]
fn tell_next<A: Automaton>(
    cursor: &mut Cursor<A, Tally>,
    input: &Input<'_>,
    direction: Direction,
    from: usize,
    state: &mut OverlappingState,
) -> Result<(), MatchError>
    requires in_span { IsInSpan (query_of input.now) from }
    requires within { (query_of input.now).end ≤ length (query_of input.now).haystack }
    requires none { state.old.told ≡ None }
    ensures state { Fits (A.table cursor.old.table) (A.ids cursor.old.table) (query_of input.now) state.new }
    ensures told { IfSome state.new.told (IsTold (A.table cursor.old.table) (query_of input.now)) }
    ensures call { let q = query_of input.now in
        let t = A.table cursor.old.table in
        let ids = A.ids cursor.old.table in record {
          result = result;
          told = state.new.told;
          left = remaining_matches t ids direction q state.new;
        } ≡ next_call (overlapping_walk t.machine direction (row_of ids cursor.old.row) from
        (units_left direction q from)) }
{
    let mut steps = Steps::new(Tally);
    let places = cursor.places();
    match next_match(cursor, input, direction, from, places, &mut steps) {
        Err(error) => {
            state.stage = Stage::Ended;
            Err(error)
        }
        Ok(None) => {
            state.stage = Stage::Ended;
            Ok(())
        }
        Ok(Some(offset)) => {
            state.told = Some(HalfMatch::new(cursor.pattern(0), offset));
            state.stage = Stage::Met(MetRow {
                row: cursor.row(),
                offset,
                told: 1,
            });
            Ok(())
        }
    }
}
