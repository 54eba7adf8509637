//! The kinds of rows, which decide their order.

ghost use Rattle.std.specs.Prelude.{◌≡◌, ◌<◌, ◌&&◌, nat_lt, IfOk};
ghost use Rattle.std.specs.List.{list_any};
ghost use Rattle.rx_dense.specs.Layouts.{AreRows, AreStarts};
ghost use Rattle.rx_order.specs.ByKind.{AreStartRows};
ghost use Rattle.rx_order.specs.RowOrder.{is_accel_kind, kind_by};

use rx_dense::OwnedDFA;
use std::alloc::{AllocError, Global};

/// For each row, whether some search starts there.
pub fn start_rows(alloc: Global, dfa: &OwnedDFA) -> Result<Vec<bool>, AllocError>
    ensures rows { IfOk result (λ starts. AreStartRows dfa.now starts.items) }
    ensures are_rows { IfOk result (λ _. AreRows dfa.now) }
    ensures are_starts { IfOk result (λ _. AreStarts dfa.now) }
{
    let stride2 = dfa.stride2();
    let mut starts = vec![in alloc; false; dfa.state_len()]?;
    for (id, _, _) in dfa.starts() {
        starts[id.as_usize() >> stride2] = true;
    }
    Ok(starts)
}

/// The kind of a row, by whether it is a match row, whether it is accelerated, and whether some search starts there.
pub fn kind(row: usize, matches: bool, accelerated: bool, starts: bool) -> u8
    ensures value { result ≡ kind_by row matches accelerated (nat_lt 1 row && starts) }
    ensures below { result < 8 }
{
    if row < 2 {
        return row as u8;
    }
    match (matches, accelerated, starts) {
        (true, false, _) => 2,
        (true, true, _) => 3,
        (false, true, false) => 4,
        (false, true, true) => 5,
        (false, false, true) => 6,
        (false, false, false) => 7,
    }
}

/// Whether some kind is that of an accelerated row.
pub(crate) fn any_accelerated(kinds: &[u8]) -> bool
    ensures { result ≡ list_any is_accel_kind kinds.now }
{
    kinds.iter().any(|kind| *kind >= 3 && *kind <= 5)
}
