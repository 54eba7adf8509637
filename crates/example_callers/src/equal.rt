//! The caller of `docs/calling/rx_equal.md`.

ghost use Rattle.std.specs.Prelude.{◌≤◌, IfOk, IsTrue};
ghost use Rattle.rx_equal.specs.Partings.{NothingParts};

use rx_equal::{Verdict, check_links, compare};
use rx_search::Automaton;
use std::alloc::{AllocError, Global};

/// Whether two tables of at most 65,536 patterns mean the same, by evidence that a checker accepts.
pub fn mean_the_same<A: Automaton, B: Automaton>(
    alloc: Global,
    a: &A,
    b: &B,
) -> Result<bool, AllocError>
    requires sound { A.IsSound a.now }
    requires other_sound { B.IsSound b.now }
    requires few { (A.table a.now).pattern_len ≤ 65536 }
    requires other_few { (B.table b.now).pattern_len ≤ 65536 }
    ensures { IfOk result (λ yes. IsTrue yes → NothingParts (A.table a.now) (B.table b.now)) }
{
    match compare(alloc, a, b)? {
        Verdict::Equal(links) => check_links(alloc, a, b, &links),
        Verdict::Differ(_) => Ok(false),
    }
}
