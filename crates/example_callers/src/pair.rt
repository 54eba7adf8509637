//! The caller of `docs/calling/rx_pair.md`.

use rx_base::{Input, MatchError};
use rx_pair::Regex;
use rx_search::Automaton;

/// How many matches a text has, each after the one before.
pub fn count<A: Automaton>(regex: &Regex<A>, text: &[u8]) -> Result<u64, MatchError> {
    let mut count: u64 = 0;
    for found in regex.find_iter(&Input::new(text)) {
        match found {
            Ok(_) => count = count.saturating_add(1),
            Err(error) => return Err(error),
        }
    }
    Ok(count)
}

/// Whether a text has a match, by two sound tables of the same patterns.
pub fn is_match<A: Automaton>(forward: &A, reverse: &A, text: &[u8]) -> Result<bool, MatchError>
    requires forward { A.IsSound forward.now }
    requires reverse { A.IsSound reverse.now }
{
    Regex::new(forward, reverse).is_match(&Input::new(text))
}
