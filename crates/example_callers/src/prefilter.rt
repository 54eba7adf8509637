//! The caller of `docs/calling/rx_prefilter.md`.

use rx_base::{Input, Match, MatchError};
use rx_pair::Regex;
use rx_prefilter::{OnlyLiteral, only_literal, try_search};
use rx_search::Automaton;
use std::alloc::{AllocError, Global};

/// The leftmost match of a file that was read, or the error of its search. Fails if memory runs out.
pub fn find_in_file<A: Automaton>(
    alloc: Global,
    regex: &Regex<A>,
    file: &[u8],
) -> Result<Result<Option<Match>, MatchError>, AllocError> {
    try_search(alloc, regex, &Input::new(file))
}

/// The literal for which a pair searches, if it searches for nothing else. Fails if memory runs out.
pub fn literal_of<A: Automaton>(
    alloc: Global,
    regex: &Regex<A>,
) -> Result<Option<OnlyLiteral>, AllocError> {
    only_literal(alloc, regex)
}
