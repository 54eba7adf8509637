//! Numbers for the labels of rows.

ghost use Rattle.std.specs.Prelude.{◌≡◌, ℕ, ◌<◌, All, IfOk, OnErr, length};
ghost use Rattle.rx_spec.specs.Ids.{row_of};
ghost use Rattle.rx_spec.specs.Tables.{IsSound};
ghost use Rattle.rx_search.specs.Starts.{IsId};
ghost use Rattle.rx_dense.specs.Layouts.{ids_of, row_count, table_of};
ghost use Rattle.rx_minimize.specs.LabelNumbers.{AddsLabel, AreByLabel};

use rx_base::StateID;
use rx_dense::OwnedDFA;
use rx_interner::Interner;
use rx_search::Automaton;
use std::alloc::{AllocError, Global};

/// The number of the label of rows that report nothing, and of the quit row's.
const PLAIN: u32 = 0;

const QUIT: u32 = 1;

/// The number of each row's label. Two rows have one number exactly if they report the same.
pub(crate) fn labels(alloc: Global, dfa: &OwnedDFA) -> Result<Vec<u32>, AllocError>
    requires { IsSound (table_of dfa.now) }
    ensures count { IfOk result (λ labels. length labels.items ≡ row_count dfa.now) }
    ensures below { IfOk result (λ labels. All (λ label. label < row_count dfa.now) labels.items) }
    ensures numbered { IfOk result (λ labels. AreByLabel (table_of dfa.now) labels.items) }
{
    let stride2 = dfa.stride2();
    let count = dfa.state_len();
    let mut lists = Interner::new(alloc);
    let mut labels = Vec::with_capacity(alloc, count)?;
    for row in 0..count {
        let id = StateID::must(row << stride2);
        labels.push(label(dfa, id, &mut lists)?)?;
    }
    // Each list is some row's.
    prove!(lists.len() <= count);
    Ok(labels)
}

/// The number of a row's label. Pattern lists are numbered in the order in which they are found.
fn label(dfa: &OwnedDFA, id: StateID, lists: &mut Interner) -> Result<u32, AllocError>
    requires sound { IsSound (table_of dfa.now) }
    requires is_id { IsId (ids_of dfa.now) id }
    requires few { length lists.old < 2147483648 }
    ensures { IfOk result (λ number.
        AddsLabel lists.old ((table_of dfa.now).machine.label (row_of (ids_of dfa.now) id)) number lists.new) }
{
    if dfa.is_match_state(id) {
        return Ok(2 + lists.intern(dfa.patterns(id))?.id);
    }
    if dfa.is_quit_state(id) {
        return Ok(QUIT);
    }
    Ok(PLAIN)
}
