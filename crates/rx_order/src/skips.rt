//! The needles of a row: the bytes at which a search that skips from it stops.

ghost use Rattle.std.specs.Prelude.{◌≡◌, IfSome, is_some};
ghost use Rattle.rx_spec.specs.Ids.{row_of};
ghost use Rattle.rx_search.specs.Starts.{IsId};
ghost use Rattle.rx_dense.specs.Layouts.{ids_of, table_of};
ghost use Rattle.rx_order.specs.ByKind.{leaving_of};
ghost use Rattle.rx_order.specs.RowOrder.{are_needles};

use rx_base::StateID;
use rx_dense::{Accel, OwnedDFA};
use rx_search::Automaton;

/// The needles of a row, or `None` if a search can't skip from it. They are the bytes that lead elsewhere: one to
/// three, none of them a space.
///
/// The loop over the bytes ends at the first byte that is one too many, so most rows take a few steps.
pub(crate) fn needles(dfa: &OwnedDFA, id: StateID) -> Option<Accel>
    requires { IsId (ids_of dfa.now) id }
    ensures value { IfSome result (λ accel. accel ≡ leaving_of (table_of dfa.now) (row_of (ids_of dfa.now) id)) }
    ensures exactly { is_some result ≡ are_needles (leaving_of (table_of dfa.now) (row_of (ids_of dfa.now) id)) }
{
    let mut accel = Accel::new();
    for byte in 0..256u16 {
        if dfa.next_state(id, byte as u8) != id {
            if !accel.add(byte as u8) {
                return None;
            }
        }
    }
    if accel.is_empty() {
        return None;
    }
    Some(accel)
}
