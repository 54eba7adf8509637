//! Sets of bytes whose columns are listed already.

ghost use Rattle.std.specs.Prelude.{◌≡◌, ◌<◌, ℕ, List, [], length, IfOk, IfSome};
ghost use Rattle.rx_stepper.specs.ListedSets.{IsListed, AreListed};

use rx_base::ByteSet;
use std::alloc::{AllocError, Global};

/// The number of places: one for each byte.
const PLACES: usize = 256;

/// A set, and the range of its columns among those of all rows.
#[derive(Clone, Copy)]
pub(crate) struct ListedSet {
    pub(crate) set: ByteSet,
    pub(crate) start: usize,
    pub(crate) stop: usize,
}

/// For each byte, the last listed set whose least byte it is.
#[derive(Drop)]
pub(crate) struct ListedSets {
    sets: Vec<ListedSet>,
    ghost len: { length sets.items ≡ 256 },
}

impl ListedSets {
    /// Only the empty set, which has no columns.
    pub(crate) fn new(alloc: Global) -> Result<ListedSets, AllocError>
        ensures { (units : List ℕ) → IfOk result (λ listed. AreListed units [] listed.sets.items) }
    {
        let none = ListedSet {
            set: ByteSet::empty(),
            start: 0,
            stop: 0,
        };
        Ok(ListedSets {
            sets: vec![in alloc; none; PLACES]?,
        })
    }

    /// The range of a set's columns, if it is still known.
    #[inline]
    pub(crate) fn get(&self, set: &ByteSet) -> Option<(usize, usize)>
        ensures { (units columns : List ℕ) → AreListed units columns self.now.sets.items
            → IfSome result (λ span. IsListed units columns set.now span.0 span.1) }
    {
        let listed = &self.sets[place_of(set)];
        if listed.set == *set {
            Some((listed.start, listed.stop))
        } else {
            None
        }
    }

    /// Keeps the range of a set's columns. Replaces the last set with the same least byte.
    pub(crate) fn keep(&mut self, set: &ByteSet, start: usize, stop: usize)
        ensures { (units columns : List ℕ) → AreListed units columns self.old.sets.items
            → IsListed units columns set.now start stop → AreListed units columns self.new.sets.items }
    {
        self.sets[place_of(set)] = ListedSet {
            set: *set,
            start,
            stop,
        };
    }
}

/// The place of a set: its least byte.
#[inline]
fn place_of(set: &ByteSet) -> usize
    ensures { result < 256 }
{
    let (low, high) = set.halves();
    // Half a set has 128 bytes. The empty set shares a place.
    let place = if low != 0 {
        low.trailing_zeros() % 128
    } else {
        128 + high.trailing_zeros() % 128
    };
    place as usize
}
