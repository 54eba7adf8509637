//! Rows that change places, are renamed, or are cut off.

ghost use Rattle.std.specs.Prelude.{◌≡◌, ℕ, ◌<◌, ◌≤◌, ◌⊎◌, ◌+◌, ◌*◌, ◌/◌, ◌%◌, ◌^◌, length, slice_index, map, All};
ghost use Rattle.rx_search.specs.Starts.{IsId};
ghost use Rattle.rx_dense.specs.Builder.{AreSwapped, IsCopied, IsMachineRenamed, kept, renamed};
ghost use Rattle.rx_dense.specs.Builder.{AreMovedDown, IsMovedDown, with_renamed_row, with_rows};
ghost use Rattle.rx_dense.specs.Layouts.{AreRows, ids_of, row_count, stride};

use crate::DFA;
use rx_base::StateID;

impl DFA<Vec<u32>> {
    /// Lets each of two rows lead where the other led. Nothing else changes, not even what leads to them.
    pub fn swap_states(&mut self, id1: StateID, id2: StateID)
        requires id1 { IsId (ids_of self.old) id1 }
        requires id2 { IsId (ids_of self.old) id2 }
        ensures rest { self.new ≡ record self.old { words = self.new.words } }
        ensures swapped { AreSwapped (stride self.old) self.old.words self.new.words id1 id2 }
    {
        if id1 == id2 {
            return;
        }
        let width = self.stride();
        self.marks.clear();
        swap_rows(&mut self.words, id1.as_usize(), id2.as_usize(), width);
    }

    /// Lets a row lead where another one leads. Nothing else changes.
    pub fn copy_state(&mut self, from: StateID, to: StateID)
        requires from { IsId (ids_of self.old) from }
        requires to { IsId (ids_of self.old) to }
        ensures rest { self.new ≡ record self.old { words = self.new.words } }
        ensures copied { IsCopied (stride self.old) self.old.words self.new.words from to }
        ensures rows { AreRows self.new }
    {
        let width = self.stride();
        if from == to {
            return;
        }
        self.marks.clear();
        copy_row(&mut self.words, from.as_usize(), to.as_usize(), width);
    }

    /// Renames all rows: whatever led to a row, from a row or as a start entry, leads to the row whose id the map has
    /// at that row's number. The rows stay where they are.
    pub fn remap(&mut self, map: &[StateID])
        requires count { length map.now ≡ row_count self.old }
        requires ids { All (IsId (ids_of self.old)) map.now }
        ensures value { self.new ≡ renamed self.old map.now }
        ensures machine { IsMachineRenamed self.old self.new map.now }
    {
        let stride2 = self.stride2();
        let alphabet_len = self.alphabet_len();
        self.marks.clear();
        rename_rows(&mut self.words, map, stride2, alphabet_len);
        rename(&mut self.starts, map, stride2);
    }

    /// Renames what one row leads to, and nothing else.
    pub fn remap_state(&mut self, id: StateID, map: &[StateID])
        requires is_id { IsId (ids_of self.old) id }
        requires count { length map.now ≡ row_count self.old }
        requires ids { All (IsId (ids_of self.old)) map.now }
        ensures value { self.new ≡ with_renamed_row self.old id map.now }
        ensures rows { ids_of self.new ≡ ids_of self.old }
    {
        let stride2 = self.stride2();
        let first = id.as_usize();
        let end = first + self.alphabet_len();
        self.marks.clear();
        rename(&mut self.words[first..end], map, stride2);
    }

    /// Keeps so many rows, two at least, and cuts off the others. Neither a row that is kept nor a start entry may
    /// lead to one of these.
    pub fn truncate_states(&mut self, len: usize)
        requires two { 2 ≤ len }
        requires within { len ≤ row_count self.old }
        requires rows { (k : ℕ) → k < len * stride self.old → slice_index self.old.words k < len * stride self.old }
        requires starts { (k : ℕ) → k < length self.old.starts → slice_index self.old.starts k < len * stride self.old }
        ensures { self.new ≡ with_rows self.old len }
    {
        let width = self.stride();
        self.marks.clear();
        self.words.truncate(len * width);
    }

    /// Keeps these rows, two at least, each at its index among them, and cuts off the others. Whatever led to a row,
    /// from a row or as a start entry, leads to the row whose id the map has at that row's number. No row moves up.
    pub fn keep_states(&mut self, rows: &[u32], map: &[StateID])
        requires two { 2 ≤ length rows.now }
        requires within { (k : ℕ) → k < length rows.now → slice_index rows.now k < row_count self.old }
        requires down { (k : ℕ) → k < length rows.now → k ≤ slice_index rows.now k }
        requires count { length map.now ≡ row_count self.old }
        requires ids { All (IsId (ids_of (with_rows self.old (length rows.now)))) map.now }
        ensures { self.new ≡ kept self.old rows.now map.now }
    {
        let stride2 = self.stride2();
        let alphabet_len = self.alphabet_len();
        self.marks.clear();
        move_rows_down(&mut self.words, rows, map, stride2, alphabet_len);
        self.words.truncate(rows.len() << stride2);
        rename(&mut self.starts, map, stride2);
    }
}

/// Exchanges two rows of so many words, which lie apart.
fn swap_rows(words: &mut Vec<u32>, first: usize, second: usize, width: usize)
    requires first_within { first + width ≤ length words.old.items }
    requires second_within { second + width ≤ length words.old.items }
    requires apart { (first + width ≤ second) ⊎ (second + width ≤ first) }
    ensures { AreSwapped width words.old.items words.new.items first second }
{
    for column in 0..width {
        let kept = words[first + column];
        words[first + column] = words[second + column];
        words[second + column] = kept;
    }
}

/// Copies a row of so many words over another one, which lies apart.
fn copy_row(words: &mut [u32], from: usize, to: usize, width: usize)
    requires from_within { from + width ≤ length words.old }
    requires to_within { to + width ≤ length words.old }
    requires apart { (from + width ≤ to) ⊎ (to + width ≤ from) }
    ensures { IsCopied width words.old words.new from to }
{
    for column in 0..width {
        words[to + column] = words[from + column];
    }
}

/// Moves each of these rows down to its index among them, and gives each of its entries way to the id that a list has
/// for its row.
fn move_rows_down(
    words: &mut [u32],
    rows: &[u32],
    new_ids: &[StateID],
    stride2: usize,
    alphabet_len: usize,
)
    requires exponent { stride2 ≤ 9 }
    requires fits { alphabet_len ≤ 2 ^ stride2 }
    requires within { (k : ℕ) → k < length rows.now → slice_index rows.now k < length words.old / 2 ^ stride2 }
    requires down { (k : ℕ) → k < length rows.now → k ≤ slice_index rows.now k }
    requires ids { All (λ id. id / 2 ^ stride2 < length new_ids.now) words.old }
    ensures { AreMovedDown stride2 alphabet_len new_ids.now rows.now (length rows.now) words.old words.new }
{
    for place in 0..rows.len() {
        let to = place << stride2;
        let from = (rows[place] as usize) << stride2;
        move_row_down(words, from, to, new_ids, stride2, alphabet_len);
    }
}

/// Gives the first words of a row way to the ids that a list has for the rows to which another one leads, which lies
/// apart or is the same.
fn move_row_down(
    words: &mut [u32],
    from: usize,
    to: usize,
    new_ids: &[StateID],
    stride2: usize,
    width: usize,
)
    requires exponent { stride2 ≤ 9 }
    requires from_within { from + width ≤ length words.old }
    requires down { (to ≡ from) ⊎ (to + width ≤ from) }
    requires ids { (c : ℕ) → c < width → slice_index words.old (from + c) / 2 ^ stride2 < length new_ids.now }
    ensures { IsMovedDown stride2 new_ids.now width words.old words.new from to }
{
    for column in 0..width {
        words[to + column] = new_ids[(words[from + column] >> stride2) as usize].as_u32();
    }
}

/// Gives each id way to the one that a list has for its row.
fn rename(ids: &mut [u32], new_ids: &[StateID], stride2: usize)
    requires exponent { stride2 ≤ 9 }
    requires rows { All (λ id. id / 2 ^ stride2 < length new_ids.now) ids.old }
    ensures { ids.new ≡ map (λ id. slice_index new_ids.now (id / 2 ^ stride2)) ids.old }
{
    for id in ids.iter_mut() {
        *id = new_ids[(*id >> stride2) as usize].as_u32();
    }
}

/// Gives each entry of each row way to the id that a list has for its row. What stands past the alphabet is no
/// entry.
fn rename_rows(words: &mut [u32], new_ids: &[StateID], stride2: usize, alphabet_len: usize)
    requires exponent { stride2 ≤ 9 }
    requires fits { alphabet_len ≤ 2 ^ stride2 }
    requires whole { length words.old % 2 ^ stride2 ≡ 0 }
    requires rows { All (λ id. id / 2 ^ stride2 < length new_ids.now) words.old }
    ensures count { length words.new ≡ length words.old }
    ensures entries { (k : ℕ) → k < length words.old → k % 2 ^ stride2 < alphabet_len
        → slice_index words.new k ≡ slice_index new_ids.now (slice_index words.old k / 2 ^ stride2) }
    ensures others { (k : ℕ) → k < length words.old → alphabet_len ≤ k % 2 ^ stride2
        → slice_index words.new k ≡ slice_index words.old k }
{
    let stride = 1 << stride2;
    for row in 0..words.len() / stride {
        let first = row * stride;
        rename(&mut words[first..first + alphabet_len], new_ids, stride2);
    }
}
