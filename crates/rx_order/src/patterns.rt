//! The patterns of match rows.

ghost use Rattle.std.specs.Prelude.{◌≡◌, ◌-◌, ◌*◌, IfOk, map, slice_index, true};
ghost use Rattle.std.specs.BTreeMap.{keys};
ghost use Rattle.std.specs.List.{range_with_len};
ghost use Rattle.rx_spec.specs.Ids.{row_of};
ghost use Rattle.rx_spec.specs.Tables.{IsSound, is_match};
ghost use Rattle.rx_search.specs.Labels.{patterns_of};
ghost use Rattle.rx_search.specs.Starts.{IsId};
ghost use Rattle.rx_dense.specs.Builder.{pattern_lists};
ghost use Rattle.rx_dense.specs.Layouts.{ids_of, stride, table_of};
ghost use Rattle.rx_order.specs.ByKind.{HaveMatches, lists_in};

use rx_base::{PatternID, StateID};
use rx_dense::OwnedDFA;
use rx_search::Automaton;
use std::alloc::{AllocError, Global};
use std::collections::BTreeMap;

/// The patterns of the match rows among some rows, by the ids that they have if each row lies at its index. `ends` has
/// for each kind the place after its last row.
pub fn patterns_of_rows(
    alloc: Global,
    dfa: &OwnedDFA,
    rows: &[u32],
    ends: &[usize; 8],
) -> Result<BTreeMap<StateID, Vec<PatternID>>, AllocError>
    requires sound { IsSound (table_of dfa.now) }
    requires places { HaveMatches dfa.now rows.now ends.now }
    ensures lists { IfOk result (λ patterns. pattern_lists patterns ≡ lists_in dfa.now rows.now ends.now) }
    ensures ids { IfOk result (λ patterns. keys patterns ≡ map (λ place. place * stride dfa.now)
        (range_with_len (slice_index ends.now 1) (slice_index ends.now 3 - slice_index ends.now 1))) }
{
    let stride2 = dfa.stride2();
    let mut lists = BTreeMap::new(alloc);
    for place in ends[1]..ends[3] {
        let id = StateID::must((rows[place] as usize) << stride2);
        let list = patterns_of_row(alloc, dfa, id)?;
        lists.insert(StateID::must(place << stride2), list)?;
    }
    Ok(lists)
}

/// The patterns of a match state. Requires a sound table.
pub fn patterns_of_row(
    alloc: Global,
    dfa: &OwnedDFA,
    id: StateID,
) -> Result<Vec<PatternID>, AllocError>
    requires sound { IsSound (table_of dfa.now) }
    requires is_id { IsId (ids_of dfa.now) id }
    requires is_match { is_match (table_of dfa.now) (row_of (ids_of dfa.now) id) ≡ true }
    ensures { IfOk result (λ list. list.items ≡ patterns_of (table_of dfa.now) (row_of (ids_of dfa.now) id)) }
{
    let count = dfa.match_len(id);
    let mut list = Vec::with_capacity(alloc, count)?;
    for index in 0..count {
        list.push(dfa.match_pattern(id, index))?;
    }
    Ok(list)
}
