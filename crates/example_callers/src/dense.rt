//! The caller of `docs/calling/rx_dense.md`.

ghost use Rattle.rx_dense.specs.Facts.{IsSoundLayout};

use rx_base::{Anchored, Input, MatchError};
use rx_dense::OwnedDFA;
use rx_search::Automaton;

/// Whether a line begins with a match.
pub fn begins(table: &OwnedDFA, line: &[u8]) -> Result<bool, MatchError>
    requires { IsSoundLayout table.now }
{
    let input = Input::new(line).anchored(Anchored::Yes).earliest(true);
    match table.try_search_fwd(&input) {
        Ok(end) => Ok(end.is_some()),
        Err(error) => Err(error),
    }
}

/// How many bytes the table takes for each of its states, rounded down.
pub fn bytes_for_each_state(table: &OwnedDFA) -> usize {
    match table.state_len() {
        0 => 0,
        states => table.memory_usage() / states,
    }
}
