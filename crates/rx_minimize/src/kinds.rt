//! The kinds of the rows that are kept.

ghost use Rattle.std.specs.Prelude.{◌≡◌, ℕ, ◌<◌, ◌≤◌, IfOk, length, nat_le, nat_lt, slice_index};
ghost use Rattle.rx_dense.specs.Layouts.{AreRows, row_count};
ghost use Rattle.rx_order.specs.RowOrder.{IsOrdered, kind_of};
ghost use Rattle.rx_minimize.specs.Blocks.{AreFirsts};

use rx_base::StateID;
use rx_dense::OwnedDFA;
use rx_order::{kind, start_rows};
use rx_search::Automaton;
use std::alloc::{AllocError, Global};

/// For each kind, the place after the last of the kept rows that has that kind or a lower one.
pub(crate) fn ends(alloc: Global, dfa: &OwnedDFA, firsts: &[u32]) -> Result<[usize; 8], AllocError>
    requires ordered { IsOrdered dfa.now }
    requires firsts { AreFirsts (row_count dfa.now) firsts.now }
    ensures within { IfOk result (λ ends. (kind : ℕ) → kind < 8 → slice_index ends kind ≤ length firsts.now) }
    ensures to_end { IfOk result (λ ends. (place kind : ℕ) → place < length firsts.now → kind < 8
        → nat_lt place (slice_index ends kind) ≡ nat_le (kind_of dfa.now (slice_index firsts.now place)) kind) }
{
    let starts = start_rows(alloc, dfa)?;
    let stride2 = dfa.stride2();
    let mut ends = [0; 8];
    'rows: for place in 0..firsts.len() {
        let row = firsts[place] as usize;
        let id = StateID::must(row << stride2);
        let (is_match, is_accel) = (dfa.is_match_state(id), dfa.is_accel_state(id));
        'kinds: for other in kind(row, is_match, is_accel, starts[row]) as usize..8 {
            ends[other] = place + 1;
        }
    }
    Ok(ends)
}
