//! A counter that contracts see as a number.
//!
//! Start with [`Steps`].

ghost use Rattle.std.specs.Prelude.{◌≡◌, ◌+◌, ◌<◌, ◌-◌, ◌^◌};

use std::marker::Model;

/// How many steps were taken. It begins at 0, and only [`Steps::tick`] changes it.
///
/// What a step is, a function that ticks says. The ledger is kept and never read: code that is
/// generic in `L` has no value of it, so it can't make a counter of its own and count there.
#[derive(Drop)]
pub struct Steps<L> {
    count: u64,
    ledger: L,
}

impl<L> Model for Steps<L> {
    ghost use Rattle.std.specs.Prelude.{ℕ};

    ghost Value = { ℕ };

    ghost view = { λ s. s.count };
}

impl<L> Steps<L> {
    /// A counter at 0 that keeps `ledger`.
    pub fn new(ledger: L) -> Steps<L>
        ensures { result ≡ 0 }
    {
        Steps { count: 0, ledger }
    }

    /// Counts one more step.
    pub fn tick(&mut self)
        requires { self.old < 2 ^ 64 - 1 }
        ensures { self.new ≡ self.old + 1 }
    {
        self.count += 1;
    }

    /// How many steps were taken.
    pub fn count(&self) -> u64
        ensures { result ≡ self.now }
    {
        self.count
    }
}

/// A ledger for a counter whose count is all that matters.
#[derive(Clone, Copy, Debug, PartialEq, Eq)]
pub struct Tally;
