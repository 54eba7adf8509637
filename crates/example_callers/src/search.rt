//! The caller of `docs/calling/rx_search.md`.

ghost use Rattle.std.specs.Prelude.{◌≤◌, IfOk, IfSome, length};

use rx_base::{Input, MatchError, PatternSet};
use rx_search::Automaton;
use std::alloc::{AllocError, Global};

/// Where the first match of a text ends.
pub fn first_end<A: Automaton>(table: &A, text: &[u8]) -> Result<Option<usize>, MatchError>
    requires { A.IsSound table.now }
    ensures { IfOk result (λ end. IfSome end (λ at. at ≤ length text.now)) }
{
    match table.try_search_fwd(&Input::new(text)) {
        Ok(Some(end)) => Ok(Some(end.offset())),
        Ok(None) => Ok(None),
        Err(error) => Err(error),
    }
}

/// Which patterns match somewhere in a text. A search that fails reports none.
pub fn patterns_in<A: Automaton>(
    alloc: Global,
    table: &A,
    text: &[u8],
) -> Result<Option<PatternSet>, AllocError>
    requires { A.IsSound table.now }
{
    let mut patterns = PatternSet::new(alloc, table.pattern_len())?;
    match table.try_which_overlapping_matches(&Input::new(text), &mut patterns) {
        Ok(()) => Ok(Some(patterns)),
        Err(_) => Ok(None),
    }
}
