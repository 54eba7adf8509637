//! The patterns of the match rows, as a builder sets them.

ghost use Rattle.std.specs.Prelude.{◌≡◌, ℕ, ◌+◌, ◌<◌, ◌≤◌, ◌↔◌, [], length, get_or, Err, IfOk, OnOk, OnErr, SomeIff};
ghost use Rattle.std.specs.BTreeMap.{btree_map_len};
ghost use Rattle.std.specs.List.{concat};
ghost use Rattle.rx_spec.specs.Causes.{max_id};
ghost use Rattle.rx_dense.specs.Builder.{pattern_lists, slices_from, with_patterns};
ghost use Rattle.rx_dense.specs.Layouts.{patterns_at};

use crate::{DFA, PatternMapError};
use rx_base::{PatternID, StateID};
use std::alloc::{AllocError, Global};
use std::collections::BTreeMap;

impl DFA<Vec<u32>> {
    /// Sets the patterns of all match rows: the lists of a map, in the order of its keys, which are the rows' ids.
    /// Where it is refused, the table is as before.
    pub fn set_pattern_map(
        &mut self,
        map: &BTreeMap<StateID, Vec<PatternID>>,
    ) -> Result<(), PatternMapError>
        ensures ok { OnOk result (self.new ≡ with_patterns self.old (pattern_lists map.now)) }
        ensures lists { OnOk result ((i : ℕ) → i < btree_map_len map.now
            → patterns_at self.new i ≡ get_or (pattern_lists map.now) i []) }
        ensures fits { OnOk result (length (concat (pattern_lists map.now)) ≤ max_id) }
        ensures err { OnErr result (self.new ≡ self.old) }
        ensures too_many { (result ≡ Err PatternMapError.TooMany) ↔ (max_id < length (concat (pattern_lists map.now))) }
    {
        let len = match joined_len(map) {
            Some(len) => len,
            None => return Err(PatternMapError::TooMany),
        };
        let alloc = *self.slices.allocator();
        let slices = slices(alloc, map)?;
        let pattern_ids = joined(alloc, map, len)?;
        self.marks.clear();
        self.slices = slices;
        self.pattern_ids = pattern_ids;
        Ok(())
    }
}

/// How many patterns the lists have together, where there are not too many.
fn joined_len(map: &BTreeMap<StateID, Vec<PatternID>>) -> Option<usize>
    ensures { SomeIff result (length (concat (pattern_lists map.now)) ≤ max_id)
        (length (concat (pattern_lists map.now))) }
{
    let mut len = 0;
    for list in map.values() {
        len += list.len();
        if len > PatternID::MAX.as_usize() {
            return None;
        }
    }
    Some(len)
}

/// For each list where it begins among the joined lists, and how long it is. More lists than there are ids of rows,
/// which are the keys, would be refused as want of memory.
fn slices(alloc: Global, map: &BTreeMap<StateID, Vec<PatternID>>) -> Result<Vec<u32>, AllocError>
    requires { length (concat (pattern_lists map.now)) ≤ max_id }
    ensures value { IfOk result (λ slices. slices.items ≡ slices_from 0 (pattern_lists map.now)) }
    ensures few { OnOk result (btree_map_len map.now ≤ max_id + 1) }
{
    if map.len() > StateID::LIMIT {
        return Err(AllocError);
    }
    let mut slices = Vec::with_capacity(alloc, 2 * map.len())?;
    let mut start = 0;
    for list in map.values() {
        slices.push(start as u32)?;
        slices.push(list.len() as u32)?;
        start += list.len();
    }
    Ok(slices)
}

/// The lists one after another, so many patterns.
fn joined(
    alloc: Global,
    map: &BTreeMap<StateID, Vec<PatternID>>,
    len: usize,
) -> Result<Vec<u32>, AllocError>
    ensures { IfOk result (λ ids. ids.items ≡ concat (pattern_lists map.now)) }
{
    let mut ids = Vec::with_capacity(alloc, len)?;
    for list in map.values() {
        for id in list.iter() {
            ids.push(id.as_u32())?;
        }
    }
    Ok(ids)
}
