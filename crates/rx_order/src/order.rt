//! The order of rows by their kinds.

ghost use Rattle.std.specs.Prelude.{◌≡◌, ℕ, ◌<◌, ◌≤◌, ◌+◌, ◌*◌, ◌^◌, ◌↔◌, All, IfOk, IsTrue, length, map};
ghost use Rattle.std.specs.Prelude.{slice_index};
ghost use Rattle.std.specs.List.{range_with_len};
ghost use Rattle.rx_spec.specs.Causes.{max_id};
ghost use Rattle.rx_order.specs.ByKind.{AreByKind, AreRanked};
ghost use Rattle.rx_order.specs.Ranks.{ranked_row};
ghost use Rattle.rx_order.specs.SpecialIds.{first_id, last_id, special_ids};

use rx_base::StateID;
use rx_dense::Special;
use std::alloc::{AllocError, Global};

/// Which row will lie at each place, with the rows in the order of their kinds.
#[derive(Drop)]
pub(crate) struct Order {
    /// The row at each place.
    pub(crate) rows: Vec<u32>,
    /// For each kind, the place after its last row.
    pub(crate) ends: [usize; 8],
}

/// A row with what decides its place.
#[derive(Clone, Copy)]
struct Ranked {
    kind: u8,
    rank: u32,
    number: u32,
}

impl Ranked {
    /// Rises from kind to kind, and within a kind from rank to rank.
    fn key(&self) -> u64
        ensures { result ≡ self.now.kind * 2 ^ 32 + self.now.rank }
    {
        (u64::from(self.kind) << 32) + u64::from(self.rank)
    }
}

impl Order {
    /// The order of rows by their kinds, which are numbers below 8. Rows of one kind lie by their ranks.
    pub(crate) fn new(alloc: Global, kinds: &[u8], ranks: &[u32]) -> Result<Order, AllocError>
        requires few { length kinds.now < 2 ^ 32 }
        requires kinds { All (λ kind. kind < 8) kinds.now }
        requires ranks { length ranks.now ≡ length kinds.now }
        ensures by_kind { IfOk result (λ order. AreByKind kinds.now order.rows.items order.ends) }
        ensures ranked { IfOk result (λ order. AreRanked kinds.now ranks.now order.rows.items) }
    {
        let mut sorted = unsorted(alloc, kinds, ranks)?;
        sorted.sort_unstable_by_key(|row| row.key());
        let rows = sorted.iter().map(|row| row.number).collect(alloc)?;
        let mut ends = [0; 8];
        for kind in 0..8 {
            ends[kind] = sorted.partition_point(|row| row.kind as usize <= kind);
        }
        Ok(Order { rows, ends })
    }

    /// Whether each match row keeps its place.
    pub(crate) fn keeps_matches(&self) -> bool
        requires { slice_index self.now.ends 3 ≤ length self.now.rows.items }
        ensures { IsTrue result ↔ ((place : ℕ) → slice_index self.now.ends 1 ≤ place
            → place < slice_index self.now.ends 3 → slice_index self.now.rows.items place ≡ place) }
    {
        for place in self.ends[1]..self.ends[3] {
            if self.rows[place] as usize != place {
                return false;
            }
        }
        true
    }
}

/// The rows by their numbers, each with its kind and its rank.
fn unsorted(alloc: Global, kinds: &[u8], ranks: &[u32]) -> Result<Vec<Ranked>, AllocError>
    requires few { length kinds.now < 2 ^ 32 }
    requires ranks { length ranks.now ≡ length kinds.now }
    ensures { IfOk result (λ rows. rows.items
        ≡ map (ranked_row kinds.now ranks.now) (range_with_len 0 (length kinds.now))) }
{
    let mut rows = Vec::with_capacity(alloc, kinds.len())?;
    for number in 0..kinds.len() {
        rows.push(Ranked {
            kind: kinds[number],
            rank: ranks[number],
            number: number as u32,
        })?;
    }
    Ok(rows)
}

/// The special ids of a table whose rows lie in the order of their kinds. `ends` has for each kind the place after the
/// last row of that kind or a lower one. A row has 2^`stride2` words. `marked` is whether start rows are marked.
pub fn special(ends: &[usize; 8], stride2: usize, marked: bool) -> Special
    requires stride2 { stride2 ≤ 9 }
    requires ids { (kind : ℕ) → kind < 8 → slice_index ends.now kind * 2 ^ stride2 ≤ max_id + 2 ^ stride2 }
    ensures { result ≡ special_ids (2 ^ stride2) ends.now marked }
{
    let (min_match, max_match) = ids(ends[1], ends[3], stride2);
    let (min_accel, max_accel) = ids(ends[2], ends[5], stride2);
    let (min_start, max_start) = if marked {
        ids(ends[4], ends[6], stride2)
    } else {
        (StateID::ZERO, StateID::ZERO)
    };
    let mut special = Special {
        max: StateID::ZERO,
        quit: StateID::must(1 << stride2),
        min_match,
        max_match,
        min_accel,
        max_accel,
        min_start,
        max_start,
    };
    special.set_max();
    special
}

/// The ids of the first and the last row from one place up to another. Both are 0 if there are none.
fn ids(from: usize, to: usize, stride2: usize) -> (StateID, StateID)
    requires stride2 { stride2 ≤ 9 }
    requires ids { to * 2 ^ stride2 ≤ max_id + 2 ^ stride2 }
    ensures first { result.0 ≡ first_id (2 ^ stride2) from to }
    ensures last { result.1 ≡ last_id (2 ^ stride2) from to }
{
    if from >= to {
        return (StateID::ZERO, StateID::ZERO);
    }
    (
        StateID::must(from << stride2),
        StateID::must((to - 1) << stride2),
    )
}
