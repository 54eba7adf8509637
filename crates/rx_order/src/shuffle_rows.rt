//! Shuffling: the rows move into their order once the match states are known.

ghost use Rattle.std.specs.Prelude.{◌≡◌, ℕ, ◌<◌, ◌≤◌, Err, IfOk, OnErr, OnOk, All, false, length};
ghost use Rattle.std.specs.Prelude.{slice_index_or};
ghost use Rattle.std.specs.BTreeMap.{IsOrdered};
ghost use Rattle.std.specs.Ordering.{nat_cmp};
ghost use Rattle.std.specs.List.{concat};
ghost use Rattle.rx_spec.specs.Causes.{max_id};
ghost use Rattle.rx_spec.specs.Tables.{IsSound};
ghost use Rattle.rx_dense.specs.Builder.{pattern_lists};
ghost use Rattle.rx_dense.specs.Layouts.{AreRows, AreStarts, row_count, table_of};
ghost use Rattle.rx_dense.specs.MatchRows.{AreMatches, IsRouted, is_match_row};
ghost use Rattle.rx_order.specs.ByKind.{AreKinds};
ghost use Rattle.rx_order.specs.RowOrder.{match_lists};
ghost use Rattle.rx_order.specs.Ordering.{IsShuffled};

use crate::kinds::{kind, start_rows};
use crate::order::{Order, special};
use crate::places::Places;
use crate::ranks::depth_first;
use rx_base::{PatternID, StateID};
use rx_dense::{OwnedDFA, PatternMapError};
use std::alloc::{AllocError, Global};
use std::collections::BTreeMap;

/// Moves the rows of a table into their order, gives the match states their patterns (`matches`, by state id), and
/// marks each state in which a search starts.
///
/// On an error the table is unchanged: memory ran out, or the pattern lists are together longer than the greatest id.
pub fn shuffle(
    alloc: Global,
    dfa: &mut OwnedDFA,
    matches: BTreeMap<StateID, Vec<PatternID>>,
) -> Result<(), PatternMapError>
    requires { AreMatches dfa.old matches }
    ensures ok { OnOk result (IsShuffled dfa.old matches dfa.new) }
    ensures sound { OnOk result (IsRouted (table_of dfa.old) → IsSound (table_of dfa.new)) }
    ensures err { OnErr result (dfa.new ≡ dfa.old) }
    ensures fits { OnOk result (length (concat (pattern_lists matches)) ≤ max_id) }
    ensures joined_len { OnOk result (length (concat (match_lists dfa.new)) ≤ max_id) }
    ensures too_many { result ≡ Err PatternMapError.TooMany → max_id < length (concat (pattern_lists matches)) }
{
    let kinds = kinds(alloc, dfa, &matches)?;
    let ranks = depth_first(alloc, dfa, &kinds)?;
    let order = Order::new(alloc, &kinds, &ranks)?;
    let places = Places::new(alloc, dfa)?;
    dfa.set_pattern_map(&matches)?;
    places.arrange(dfa, &order.rows);
    dfa.set_special(special(&order.ends, dfa.stride2(), true));
    Ok(())
}

/// The kind of each row, by whether it is a match row. No row is accelerated.
fn kinds(
    alloc: Global,
    dfa: &OwnedDFA,
    matches: &BTreeMap<StateID, Vec<PatternID>>,
) -> Result<Vec<u8>, AllocError>
    requires { AreMatches dfa.now matches.now }
    ensures kinds { IfOk result (λ kinds.
        AreKinds dfa.now (is_match_row dfa.now matches.now) (λ _. false) kinds.items) }
    ensures below { IfOk result (λ kinds. All (λ kind. kind < 8) kinds.items) }
    ensures are_rows { IfOk result (λ _. AreRows dfa.now) }
    ensures are_starts { IfOk result (λ _. AreStarts dfa.now) }
    ensures ordered { IfOk result (λ _. IsOrdered nat_cmp matches.now) }
{
    let starts = start_rows(alloc, dfa)?;
    let matches = match_rows(alloc, dfa, matches)?;
    let mut kinds = Vec::with_capacity(alloc, starts.len())?;
    for row in 0..starts.len() {
        kinds.push(kind(row, matches[row], false, starts[row]))?;
    }
    Ok(kinds)
}

/// For each row, whether it is a match row.
fn match_rows(
    alloc: Global,
    dfa: &OwnedDFA,
    matches: &BTreeMap<StateID, Vec<PatternID>>,
) -> Result<Vec<bool>, AllocError>
    requires { AreMatches dfa.now matches.now }
    ensures count { IfOk result (λ rows. length rows.items ≡ row_count dfa.now) }
    ensures rows { IfOk result (λ rows. (row : ℕ) → row < row_count dfa.now
        → slice_index_or rows.items row false ≡ is_match_row dfa.now matches.now row) }
    ensures ordered { IfOk result (λ _. IsOrdered nat_cmp matches.now) }
{
    let stride2 = dfa.stride2();
    let mut rows = vec![in alloc; false; dfa.state_len()]?;
    for id in matches.keys() {
        rows[id.as_usize() >> stride2] = true;
    }
    Ok(rows)
}
