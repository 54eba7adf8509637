//! Marks on rows that are all removed at once.

ghost use Rattle.std.specs.Prelude.{◌≡◌, ℕ, ◌+◌, ◌<◌, ◌==◌, ◌||◌, true, false, not, if◌then◌else◌, length, IfOk};
ghost use Rattle.rx_stepper.specs.Stamps.{is_met, AreStamps, unmet};

use rx_base::StateID;
use std::alloc::{AllocError, Global};

/// The rows that a closure has met: those whose stamp is the number of the closure.
#[derive(Drop)]
pub(crate) struct Stamps {
    stamps: Vec<u32>,
    now: u32,
    ghost stamped: { AreStamps stamps.items now },
}

impl Stamps {
    /// Stamps for `rows` rows.
    pub(crate) fn new(alloc: Global, rows: usize) -> Result<Stamps, AllocError>
        ensures { IfOk result (λ s. length s.stamps.items ≡ rows) }
    {
        Ok(Stamps {
            stamps: vec![in alloc; 0u32; rows]?,
            now: 0,
        })
    }

    /// Begins a closure: no row is met.
    pub(crate) fn begin(&mut self)
        ensures len { length self.new.stamps.items ≡ length self.old.stamps.items }
        ensures none { (row : ℕ) → row < length self.new.stamps.items
            → is_met self.new.stamps.items self.new.now row ≡ false }
    {
        if self.now == u32::MAX {
            clear(&mut self.stamps);
            self.now = 0;
        }
        self.now += 1;
    }

    /// Whether a row is met. A row past the end counts as met.
    #[inline]
    pub(crate) fn is_met(&self, row: StateID) -> bool
        ensures { result ≡ is_met self.entry.now.stamps.items self.entry.now.now row }
    {
        match self.stamps.get(row.as_usize()) {
            Some(stamp) => *stamp == self.now,
            None => true,
        }
    }

    /// Marks a row as met. Returns whether it wasn't before. A row past the end counts as met.
    #[inline]
    pub(crate) fn is_first(&mut self, row: StateID) -> bool
        ensures new { result ≡ not (is_met self.old.stamps.items self.old.now row) }
        ensures within { result ≡ true → row < length self.old.stamps.items }
        ensures only { (x : ℕ) → is_met self.new.stamps.items self.new.now x
            ≡ ((x == row) || is_met self.old.stamps.items self.old.now x) }
        ensures len { length self.new.stamps.items ≡ length self.old.stamps.items }
        ensures count { unmet self.new.stamps.items self.new.now + (if result then 1 else 0)
            ≡ unmet self.old.stamps.items self.old.now }
    {
        let i = row.as_usize();
        if i >= self.stamps.len() {
            return false;
        }
        if self.stamps[i] == self.now {
            return false;
        }
        self.stamps[i] = self.now;
        true
    }
}

/// Sets all numbers to 0.
fn clear(numbers: &mut [u32])
    ensures len { length numbers.new ≡ length numbers.old }
    ensures zeros { AreStamps numbers.new 0 }
{
    for number in numbers.iter_mut() {
        *number = 0;
    }
}
