//! Skips from accelerated states to the next needle.

ghost use Rattle.std.specs.Prelude.{◌≤◌, length};
ghost use Rattle.rx_spec.specs.Ids.{row_of};
ghost use Rattle.rx_search.specs.Starts.{IsId};
ghost use Rattle.rx_stream.specs.Pieces.{IsSkip};

use rx_base::StateID;
use rx_search::{Automaton, first_needle};

/// The place in a piece up to which an accelerated state leads to itself: the next needle, or the end of the piece. For
/// a state without needles it is `from`.
#[inline(always)]
pub fn skip<A: Automaton>(table: &A, row: StateID, piece: &[u8], from: usize) -> usize
    requires sound { A.IsSound table.now }
    requires is_id { IsId (A.ids table.now) row }
    requires within { from ≤ length piece.now }
    ensures { IsSkip (A.table table.now) (row_of (A.ids table.now) row) piece.now from result }
{
    if !table.is_accel_state(row) {
        return from;
    }
    match first_needle(table.accelerator(row).as_slice(), &piece[from..]) {
        Some(at) => from + at,
        None => piece.len(),
    }
}
