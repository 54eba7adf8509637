//! Dense tables are `Remappable`.

use crate::Remappable;
use rx_base::StateID;
use rx_dense::DFA;

impl Remappable for DFA<Vec<u32>> {
    ghost use Rattle.rx_dense.specs.Layouts.{Layout};
    ghost use Rattle.rx_order.specs.RowLists.{transitions_of, without_rows};

    ghost transitions = { λ d. transitions_of d };

    ghost Rest = { Layout };

    ghost rest = { λ d. without_rows d };

    fn state_len(&self) -> usize {
        self.words().len() >> DFA::stride2(self)
    }

    fn stride2(&self) -> usize {
        DFA::stride2(self)
    }

    fn swap_states(&mut self, id1: StateID, id2: StateID) {
        let rows = DFA::state_len(self);
        prove!(2 <= rows);
        DFA::swap_states(self, id1, id2);
    }

    fn remap(&mut self, map: &[StateID]) {
        let rows = DFA::state_len(self);
        prove!(map.len() == rows);
        DFA::remap(self, map);
    }
}
