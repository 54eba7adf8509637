//! Dense rows as ranges, and their bytes in a sparse table.

ghost use Rattle.std.specs.Prelude.{◌≡◌, ◌<◌, ◌≤◌, ◌^◌, ◌++◌, if◌then◌else◌, ◌+◌, ◌*◌, IfOk, length};
ghost use Rattle.std.specs.Int.{w32};
ghost use Rattle.rx_wire.specs.Fields.{field};
ghost use Rattle.rx_wire.specs.declared.order.Order.TheVariants.{Little};
ghost use Rattle.rx_search.specs.Starts.{IsId};
ghost use Rattle.rx_dense.specs.Facts.{IsSoundLayout};
ghost use Rattle.rx_dense.specs.Layouts.{ids_of, needles_of_id};
ghost use Rattle.rx_sparse.specs.Reading.{offset_in, read_row, HaveOffsets};
ghost use Rattle.rx_sparse.specs.Rows.{ends_text, head_number, is_some_list, next_ids, patterns_text, row_len};
ghost use Rattle.rx_sparse.specs.Rows.{row_text, words_text};
ghost use Rattle.rx_sparse.specs.Sparse.{patterns_of_id, renamed_row};

use crate::offsets::Offsets;
use crate::ranges::ClassRange;
use rx_base::{Needles, StateID};
use rx_dense::{DFA, WordStore};
use rx_search::Automaton;
use std::alloc::AllocError;

/// A row of a dense table: its ranges, where end of input leads, its patterns and its needles. Its ids are those of the
/// dense table.
#[derive(Drop)]
pub(crate) struct ReadRow<'d, 'r> {
    ranges: &'r [ClassRange],
    eoi: u32,
    patterns: &'d [u32],
    needles: Needles,
}

/// Reads a row: its ranges and where end of input leads.
pub(crate) fn read_row<'d, 'r, T: WordStore>(
    dfa: &'d DFA<T>,
    id: StateID,
    ranges: &'r [ClassRange],
    eoi: u32,
) -> ReadRow<'d, 'r>
    requires sound { IsSoundLayout dfa.now }
    requires is_id { IsId (ids_of dfa.now) id }
    ensures { read_row result ≡ record {
      ranges = ranges.now;
      eoi = eoi;
      patterns = patterns_of_id dfa.now id;
      needles = needles_of_id dfa.now id;
    } }
{
    ReadRow {
        ranges,
        eoi,
        patterns: patterns(dfa, id),
        needles: dfa.accelerator(id),
    }
}

/// The patterns of a row. Only match rows have some.
fn patterns<T: WordStore>(dfa: &DFA<T>, id: StateID) -> &[u32]
    requires sound { IsSoundLayout dfa.now }
    requires is_id { IsId (ids_of dfa.now) id }
    ensures { result.now ≡ patterns_of_id dfa.now id }
{
    if dfa.is_match_state(id) {
        dfa.patterns(id)
    } else {
        &[]
    }
}

/// The length in bytes of patterns with their count.
fn patterns_len(patterns: &[u32]) -> usize
    ensures { result ≡ (if is_some_list patterns.now then 4 + 4 * length patterns.now else 0) }
{
    if patterns.is_empty() {
        0
    } else {
        4 + 4 * patterns.len()
    }
}

impl<'d, 'r> ReadRow<'d, 'r> {
    /// The length of the row in bytes.
    pub(crate) fn len(&self) -> usize
        requires { length self.now.ranges.now ≤ 256 }
        ensures { result ≡ row_len (read_row self.now) }
    {
        2 + 6 * (self.ranges.len() + 1) + patterns_len(self.patterns) + 1 + self.needles.len()
    }

    /// The number of ranges with that of end of input. The highest bit is set for a match row.
    fn head_number(&self) -> u16
        requires { length self.now.ranges.now ≤ 256 }
        ensures { result ≡ head_number (read_row self.now) }
    {
        let count = self.ranges.len() as u16 + 1;
        if self.patterns.is_empty() {
            count
        } else {
            count + 32768
        }
    }

    /// Adds the bytes of the row, with offsets for its ids.
    pub(crate) fn add_to(&self, offsets: &Offsets, bytes: &mut Vec<u8>) -> Result<(), AllocError>
        requires few { length self.now.ranges.now ≤ 256 }
        requires few_patterns { length self.now.patterns.now < 2 ^ 32 }
        requires ids { HaveOffsets offsets.now (next_ids (read_row self.now)) }
        ensures { IfOk result (λ _. bytes.new.items
            ≡ bytes.old.items ++ row_text Little (renamed_row (offset_in offsets.now) (read_row self.now))) }
    {
        bytes.extend_from_slice(&self.head_number().to_le_bytes())?;
        add_ends(self.ranges, bytes)?;
        self.add_next_ids(offsets, bytes)?;
        add_patterns(self.patterns, bytes)?;
        bytes.push(self.needles.len() as u8)?;
        bytes.extend_from_slice(self.needles.as_slice())
    }

    /// Adds the offsets of the rows to which the ranges and end of input lead.
    fn add_next_ids(&self, offsets: &Offsets, bytes: &mut Vec<u8>) -> Result<(), AllocError>
        requires { HaveOffsets offsets.now (next_ids (read_row self.now)) }
        ensures { IfOk result (λ _. bytes.new.items
            ≡ bytes.old.items
            ++ words_text Little (next_ids (renamed_row (offset_in offsets.now) (read_row self.now)))) }
    {
        for range in self.ranges {
            add_word(offsets.offset(range.next), bytes)?;
        }
        add_word(offsets.offset(self.eoi), bytes)
    }
}

/// Adds the first and last class of each range, then two zeros for end of input.
fn add_ends(ranges: &[ClassRange], bytes: &mut Vec<u8>) -> Result<(), AllocError>
    ensures { IfOk result (λ _. bytes.new.items ≡ bytes.old.items ++ ends_text ranges.now) }
{
    for range in ranges {
        bytes.extend_from_slice(&[range.first, range.last])?;
    }
    bytes.extend_from_slice(&[0, 0])
}

/// Adds a word.
pub(crate) fn add_word(word: u32, bytes: &mut Vec<u8>) -> Result<(), AllocError>
    ensures { IfOk result (λ _. bytes.new.items ≡ bytes.old.items ++ field Little w32 word) }
{
    bytes.extend_from_slice(&word.to_le_bytes())
}

/// Adds the number of patterns and the patterns, if there are some.
fn add_patterns(patterns: &[u32], bytes: &mut Vec<u8>) -> Result<(), AllocError>
    requires { length patterns.now < 2 ^ 32 }
    ensures { IfOk result (λ _. bytes.new.items ≡ bytes.old.items ++ patterns_text Little patterns.now) }
{
    if patterns.is_empty() {
        return Ok(());
    }
    add_word(patterns.len() as u32, bytes)?;
    add_words(patterns, bytes)
}

/// Adds words.
fn add_words(words: &[u32], bytes: &mut Vec<u8>) -> Result<(), AllocError>
    ensures { IfOk result (λ _. bytes.new.items ≡ bytes.old.items ++ words_text Little words.now) }
{
    for word in words {
        add_word(*word, bytes)?;
    }
    Ok(())
}
