//! Tables whose rows can move, and the record of where their rows went.

ghost use Rattle.std.specs.Prelude.{◌≡◌, ◌<◌, ◌≤◌, ◌*◌, ◌^◌, All, IfOk, OnErr, OnOk, length, slice_index};
ghost use Rattle.std.specs.List.{swap};
ghost use Rattle.rx_spec.specs.Causes.{max_id};
ghost use Rattle.rx_order.specs.Transitions.{Transitions, AreRows, IsRowId, row_of, with_ids, with_swapped};
ghost use Rattle.rx_order.specs.Renaming.{Fits, IsRearranged, IsRenamed, new_id, unmoved};

use rx_base::StateID;
use std::alloc::{AllocError, Global};
use std::marker::Model;

/// A table whose rows can be exchanged and renamed.
///
/// Contracts see it as its `transitions`, a list of rows of ids and a list of start entries, and as its `rest`, which
/// these calls don't change. The id of a row is its number shifted left by `stride2`.
pub trait Remappable {
    ghost transitions: { Self → Transitions };

    ghost Rest: { Type 0 };

    ghost rest: { Self → Rest };

    /// The number of rows.
    fn state_len(&self) -> usize
        ensures value { result ≡ length (transitions self.now).rows }
        ensures rows { AreRows (transitions self.now) };

    /// The shift between a row's number and its id, at most 30.
    fn stride2(&self) -> usize
        ensures value { result ≡ (transitions self.now).stride2 }
        ensures bound { result ≤ 30 };

    /// Exchanges the transitions of two rows. Transitions that lead to these rows don't change.
    fn swap_states(&mut self, id1: StateID, id2: StateID)
        requires id1 { IsRowId (transitions self.old) id1 }
        requires id2 { IsRowId (transitions self.old) id2 }
        ensures swapped { transitions self.new ≡ with_swapped (transitions self.old)
            (row_of (transitions self.old) id1) (row_of (transitions self.old) id2) }
        ensures rest { rest self.new ≡ rest self.old };

    /// Replaces each id, among transitions and start entries, by the entry of `map` at the number of its row.
    fn remap(&mut self, map: &[StateID])
        requires count { length map.now ≡ length (transitions self.old).rows }
        requires ids { All (IsRowId (transitions self.old)) map.now }
        ensures renamed { transitions self.new
            ≡ with_ids (λ id. slice_index map.now (row_of (transitions self.old) id)) (transitions self.old) }
        ensures rest { rest self.new ≡ rest self.old };
}

/// The record of where the rows of a table went, for renaming them all at once.
///
/// Contracts see it as an `Arrangement`: for each place, the old row that lies there.
#[derive(Drop)]
pub struct Remapper {
    rows: Vec<u32>,
    stride2: usize,
}

impl Model for Remapper {
    ghost use Rattle.rx_order.specs.Renaming.{Arrangement, IsArrangement};

    ghost Value = { Arrangement };

    ghost view = { λ r. record { rows = r.rows.items; stride2 = r.stride2 } };

    ghost invariant = { λ r. IsArrangement (record { rows = r.rows.items; stride2 = r.stride2 }) };
}

impl Remapper {
    /// The record of a table whose rows haven't moved.
    pub fn new<R: Remappable>(alloc: Global, r: &R) -> Result<Remapper, AllocError>
        ensures unmoved { IfOk result (λ a. a ≡ unmoved (R.transitions r.now)) }
        ensures fits { IfOk result (λ a. Fits a (R.transitions r.now)) }
        ensures rearranged { IfOk result (λ a. IsRearranged a (R.transitions r.now) (R.transitions r.now)) }
    {
        let stride2 = r.stride2();
        let count = r.state_len();
        let mut rows = Vec::with_capacity(alloc, count)?;
        for row in 0..count {
            rows.push(row as u32)?;
        }
        Ok(Remapper { rows, stride2 })
    }

    /// Exchanges two rows. Transitions that lead to them stay as they are until `remap`.
    pub fn swap<R: Remappable>(&mut self, r: &mut R, id1: StateID, id2: StateID)
        requires fits { Fits self.old (R.transitions r.old) }
        requires id1 { IsRowId (R.transitions r.old) id1 }
        requires id2 { IsRowId (R.transitions r.old) id2 }
        ensures fits { Fits self.new (R.transitions r.new) }
        ensures places { self.new ≡ record self.old {
          rows = swap self.old.rows (row_of (R.transitions r.old) id1) (row_of (R.transitions r.old) id2);
        } }
        ensures swapped { R.transitions r.new ≡ with_swapped (R.transitions r.old)
            (row_of (R.transitions r.old) id1) (row_of (R.transitions r.old) id2) }
        ensures rest { R.rest r.new ≡ R.rest r.old }
        // The rows of a table that lay where the arrangement says still do.
        ensures rearranged { (t : Transitions) → IsRearranged self.old t (R.transitions r.old)
            → IsRearranged self.new t (R.transitions r.new) }
    {
        r.swap_states(id1, id2);
        let first = id1.as_usize() >> self.stride2;
        let second = id2.as_usize() >> self.stride2;
        self.rows.swap(first, second);
    }

    /// Renames all transitions and start entries to the new places of their rows. If memory runs out, the rows stay
    /// where the exchanges put them and nothing is renamed.
    pub fn remap<R: Remappable>(self, alloc: Global, r: &mut R) -> Result<(), AllocError>
        requires fits { Fits self (R.transitions r.old) }
        ensures ok { OnOk result (R.transitions r.new ≡ with_ids (new_id self) (R.transitions r.old)) }
        ensures err { OnErr result (R.transitions r.new ≡ R.transitions r.old) }
        ensures rest { R.rest r.new ≡ R.rest r.old }
        // Exchanged and renamed, a table is the one that it was, with its rows at other places.
        ensures renamed { OnOk result ((t : Transitions) → IsRearranged self t (R.transitions r.old)
            → IsRenamed self t (R.transitions r.new)) }
    {
        let mut map = vec![in alloc; StateID::ZERO; r.state_len()]?;
        for (place, row) in self.rows.iter().enumerate() {
            map[*row as usize] = StateID::must(place << self.stride2);
        }
        r.remap(&map);
        Ok(())
    }
}
