//! Laws of the definitions for callers of [`refine`](crate::refine). Their bodies are empty, and their contracts are
//! the laws.

ghost use Rattle.std.specs.Prelude.{◌<◌, ◌≤◌, ◌^◌};
ghost use Rattle.rx_refine.specs.Moves.{Moves, AreMoves, read_limit};

/// A counter at 0 has room for the refinement of any table of at most 2^26 units.
pub fn room()
    ensures { (m : Moves) → AreMoves m → m.units ≤ 2 ^ 26 → read_limit m < 2 ^ 64 }
{}
