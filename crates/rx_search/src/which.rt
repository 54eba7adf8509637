//! Which patterns match somewhere.

ghost use Rattle.std.specs.Prelude.{◌≡◌, ◌≤◌, length};
ghost use Rattle.rx_spec.specs.Queries.{IsFit};
ghost use Rattle.rx_spec.specs.Splits.{overlapping_unsplit};
ghost use Rattle.rx_spec.specs.declared.Direction.TheVariants.{Forward};
ghost use Rattle.rx_base.specs.Input.{query_of};
ghost use Rattle.rx_search.specs.Collected.{collected};

use crate::Automaton;
use crate::overlapping::{OverlappingState, find_overlapping_unsplit};
use rx_base::{Direction, Input, MatchError, PatternSet};

/// Adds the patterns that a forward overlapping search tells to a set.
pub(crate) fn which_overlapping_matches<A: Automaton>(
    dfa: &A,
    input: &Input<'_>,
    patset: &mut PatternSet,
) -> Result<(), MatchError>
    requires sound { A.IsSound dfa.now }
    requires fits { IsFit (query_of input.now) }
    requires capacity { (A.table dfa.now).pattern_len ≤ length patset.old }
    ensures { let q = query_of input.now in
        let matches = overlapping_unsplit (A.table dfa.now) Forward q in
        record { result = result; set = patset.new } ≡ collected q.earliest matches.items matches.ending patset.old }
{
    let mut state = OverlappingState::start();
    'matches: loop {
        match find_overlapping_unsplit(dfa, input, Direction::Forward, &mut state) {
            Ok(()) => {}
            Err(error) => return Err(error),
        }
        let found = match state.get_match() {
            Some(found) => found,
            None => return Ok(()),
        };
        patset.insert(found.pattern());
        if patset.is_full() {
            return Ok(());
        }
        if input.get_earliest() {
            return Ok(());
        }
    }
}
