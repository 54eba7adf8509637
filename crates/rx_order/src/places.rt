//! The places of rows while they move.

ghost use Rattle.std.specs.Prelude.{◌≡◌, ℕ, ◌<◌, ◌*◌, IfOk};
ghost use Rattle.std.specs.List.{range_with_len};
ghost use Rattle.std.specs.List.Sorted.{IsPermutation};
ghost use Rattle.rx_dense.specs.Layouts.{row_count};
ghost use Rattle.rx_order.specs.Moved.{AreUnmoved, IsReordered};

use crate::ranks::numbers;
use rx_base::StateID;
use rx_dense::OwnedDFA;
use std::alloc::{AllocError, Global};

/// Where the rows of a table lie while they move.
#[derive(Drop)]
pub(crate) struct Places {
    /// The row that lies at each place.
    lying: Vec<u32>,
    /// For each row, the id of its place.
    ids: Vec<StateID>,
}

impl Places {
    /// Each row at its own place.
    pub(crate) fn new(alloc: Global, dfa: &OwnedDFA) -> Result<Places, AllocError>
        ensures { IfOk result (λ places. AreUnmoved dfa.now places.lying.items places.ids.items) }
    {
        let count = dfa.state_len();
        let stride2 = dfa.stride2();
        let lying = numbers(alloc, count)?;
        let mut ids = Vec::with_capacity(alloc, count)?;
        for row in 0..count {
            ids.push(StateID::must(row << stride2))?;
        }
        Ok(Places { lying, ids })
    }

    /// Moves each row to its place in an order and renames all rows. `order` has the row that will lie at each place.
    pub(crate) fn arrange(self, dfa: &mut OwnedDFA, order: &[u32])
        requires unmoved { AreUnmoved dfa.old self.lying.items self.ids.items }
        requires order { IsPermutation (range_with_len 0 (row_count dfa.old)) order.now }
        ensures { IsReordered order.now dfa.old dfa.new }
    {
        let stride2 = dfa.stride2();
        // Where the order rises, each row is in its place, and the table stays as it is.
        if order.is_sorted() {
            prove!(dfa.words().len() >> stride2 == order.len());
            return;
        }
        let Places { mut lying, mut ids } = self;
        for place in 0..order.len() {
            let row = order[place] as usize;
            let other = lying[place] as usize;
            let id = ids[row];
            dfa.swap_states(ids[other], id);
            lying.swap(place, id.as_usize() >> stride2);
            ids.swap(row, other);
        }
        dfa.remap(&ids);
    }
}
