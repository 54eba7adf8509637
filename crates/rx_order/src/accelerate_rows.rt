//! Acceleration: which states a search skips from.

ghost use Rattle.std.specs.Prelude.{◌≡◌, ◌<◌, ◌≤◌, ◌-◌, All, IfOk, OnErr, OnOk, length, map, slice_index};
ghost use Rattle.std.specs.List.{concat, range_with_len};
ghost use Rattle.rx_spec.specs.Causes.{max_id};
ghost use Rattle.rx_spec.specs.Tables.{is_match};
ghost use Rattle.rx_dense.specs.Builder.{with_patterns};
ghost use Rattle.rx_dense.specs.Layouts.{AreRows, AreStarts, table_of};
ghost use Rattle.rx_order.specs.ByKind.{AreKinds, AreSkippable, leaving_of, lists_in};
ghost use Rattle.rx_order.specs.RowOrder.{AreJoined, IsInOrder, IsPlain, are_needles};
ghost use Rattle.rx_order.specs.Ordering.{IsAccelerated};

use crate::kinds::{any_accelerated, kind, start_rows};
use crate::order::{Order, special};
use crate::patterns::patterns_of_rows;
use crate::places::Places;
use crate::ranks::numbers;
use crate::skips::needles;
use rx_base::StateID;
use rx_dense::{Accels, OwnedDFA};
use rx_search::Automaton;
use std::alloc::{AllocError, Global};

/// Accelerates a table. Each state that one to three bytes lead elsewhere, none of them a space, keeps these bytes as
/// its needles, and the states move into their order again. A table without such a state stays as it is.
///
/// If memory runs out, the table is unchanged.
pub fn accelerate(alloc: Global, dfa: &mut OwnedDFA) -> Result<(), AllocError>
    requires in_order { IsInOrder dfa.old }
    requires plain { IsPlain dfa.old }
    requires joined { AreJoined dfa.old }
    ensures ok { OnOk result (IsAccelerated dfa.old dfa.new) }
    ensures err { OnErr result (dfa.new ≡ dfa.old) }
{
    let kinds = kinds(alloc, dfa)?;
    if !any_accelerated(&kinds) {
        return Ok(());
    }
    let numbers = numbers(alloc, kinds.len())?;
    let order = Order::new(alloc, &kinds, &numbers)?;
    let accels = accels(alloc, dfa, &order)?;
    let places = Places::new(alloc, dfa)?;
    let marked = dfa.special().starts();
    move_patterns(alloc, dfa, &order)?;
    places.arrange(dfa, &order.rows);
    dfa.set_accels(accels);
    dfa.set_special(special(&order.ends, dfa.stride2(), marked));
    Ok(())
}

/// The kind of each row, by whether it is a match row and whether it is accelerated.
fn kinds(alloc: Global, dfa: &OwnedDFA) -> Result<Vec<u8>, AllocError>
    ensures kinds { IfOk result (λ kinds. AreKinds dfa.now (is_match (table_of dfa.now))
        (λ row. are_needles (leaving_of (table_of dfa.now) row)) kinds.items) }
    ensures below { IfOk result (λ kinds. All (λ kind. kind < 8) kinds.items) }
    ensures are_rows { IfOk result (λ _. AreRows dfa.now) }
    ensures are_starts { IfOk result (λ _. AreStarts dfa.now) }
{
    let starts = start_rows(alloc, dfa)?;
    let stride2 = dfa.stride2();
    let mut kinds = Vec::with_capacity(alloc, starts.len())?;
    for row in 0..starts.len() {
        let id = StateID::must(row << stride2);
        let accelerated = needles(dfa, id).is_some();
        kinds.push(kind(row, dfa.is_match_state(id), accelerated, starts[row]))?;
    }
    Ok(kinds)
}

/// The needles of the accelerated rows, in the new order of the rows.
fn accels(alloc: Global, dfa: &OwnedDFA, order: &Order) -> Result<Accels, AllocError>
    requires sorted { AreSkippable dfa.now order.now.rows.items order.now.ends }
    ensures { IfOk result (λ accels. accels
        ≡ map (λ place. leaving_of (table_of dfa.now) (slice_index order.now.rows.items place))
        (range_with_len (slice_index order.now.ends 2) (slice_index order.now.ends 5 - slice_index order.now.ends 2))) }
{
    let stride2 = dfa.stride2();
    let mut accels = Accels::empty(alloc)?;
    for place in order.ends[2]..order.ends[5] {
        let id = StateID::must((order.rows[place] as usize) << stride2);
        accels.add(needles(dfa, id).unwrap())?;
    }
    Ok(accels)
}

/// Moves the pattern lists of match rows into the new order. If every match row keeps its place, the lists do too.
fn move_patterns(alloc: Global, dfa: &mut OwnedDFA, order: &Order) -> Result<(), AllocError>
    requires in_order { IsInOrder dfa.old }
    requires joined { AreJoined dfa.old }
    requires sorted { AreSkippable dfa.old order.now.rows.items order.now.ends }
    ensures ok { OnOk result (dfa.new ≡ with_patterns dfa.old (lists_in dfa.old order.now.rows.items order.now.ends)) }
    ensures fits { OnOk result (length (concat (lists_in dfa.old order.now.rows.items order.now.ends)) ≤ max_id) }
    ensures err { OnErr result (dfa.new ≡ dfa.old) }
{
    if order.keeps_matches() {
        return Ok(());
    }
    let patterns = patterns_of_rows(alloc, dfa, &order.rows, &order.ends)?;
    match dfa.set_pattern_map(&patterns) {
        Ok(()) => Ok(()),
        Err(_) => Err(AllocError),
    }
}
