//! Laws of states, as functions whose contracts are the laws.

ghost use Rattle.std.specs.Prelude.{◌≡◌, ◌↔◌, IsTrue};
ghost use Rattle.rx_powerset.specs.PowerState.{state_of};

use crate::PowerState;
use std::cmp::Ordering;

/// Compares two states. They are equal exactly if their three parts are.
pub fn equal(a: &PowerState, b: &PowerState) -> bool
    ensures { IsTrue result ↔ (state_of a.now ≡ state_of b.now) }
{
    a == b
}

/// Compares two states by their order. They have the same rank exactly if their three parts are equal.
pub fn same_rank(a: &PowerState, b: &PowerState) -> bool
    ensures { IsTrue result ↔ (state_of a.now ≡ state_of b.now) }
{
    a.cmp(b) == Ordering::Equal
}
