//! Walks over the rows of an image and applies the tests of each row alone.

ghost use Rattle.std.specs.Prelude.{◌≡◌, ◌+◌, ◌-◌, ◌*◌, ◌<◌, ◌≤◌, ◌==◌, ◌&&◌, IfOk, drop, length, slice_index};
ghost use Rattle.rx_wire.specs.Kinds.{Gives, GivesExactly};
ghost use Rattle.rx_dense.specs.Specials.{is_accel_id, is_match_id};
ghost use Rattle.rx_sparse.specs.Rows.{offsets, row_in, row_len, rows_in};
ghost use Rattle.rx_sparse_image.specs.RowSets.{Marks};
ghost use Rattle.rx_sparse_image.specs.Tested.{AreTestedRows};
ghost use Rattle.rx_sparse_image.specs.Turned.{AreWholeRows};
ghost use Rattle.rx_sparse_image.specs.Walks.{after_patterns, after_patterns_if, are_ends, ends_at, has_count, head_at};
ghost use Rattle.rx_sparse_image.specs.Walks.{is_head, is_range_at, may_be_special, needles_at, next_ids_at};
ghost use Rattle.rx_sparse_image.specs.Walks.{range_count, row_at, rows_at, tested_id, tested_next, tested_pattern};

use crate::row_sets::RowSet;
use rx_base::{PatternID, StateID};
use rx_dense::Special;
use rx_image_parts::{is_in_range, is_named, word_at};
use rx_wire::{DeserializeError, DeserializeErrorKind, Order, split_bytes, split_items};
use std::alloc::Global;

/// The bounds of the numbers in rows.
#[derive(Clone, Copy)]
pub struct Bounds {
    /// The byte order of the numbers.
    pub order: Order,
    /// The special ids.
    pub special: Special,
    /// The greatest class of a byte.
    pub last_class: u8,
    /// The number of patterns.
    pub pattern_len: usize,
    /// The length of all rows in bytes.
    pub len: usize,
}

/// Whether the last of `count` ranges is that of end of input.
fn is_end_mark(count: usize, ends: &[u8]) -> bool
    requires some { 1 ≤ count }
    requires len { length ends.now ≡ 2 * count }
    ensures { result ≡ ((slice_index ends.now (2 * count - 2) == 0) && (slice_index ends.now (2 * count - 1) == 0)) }
{
    ends[2 * count - 2] == 0 && ends[2 * count - 1] == 0
}

impl Bounds {
    fn is_match(&self, at: usize) -> bool
        ensures { result ≡ is_match_id self.now.special at }
    {
        is_in_range(self.special.min_match, self.special.max_match, at)
    }

    fn is_accel(&self, at: usize) -> bool
        ensures { result ≡ is_accel_id self.now.special at }
    {
        is_in_range(self.special.min_accel, self.special.max_accel, at)
    }

    /// Whether the row at a place, if its id is special, is dead, quit or in a range.
    fn may_be_special(&self, at: usize) -> bool
        ensures { result ≡ may_be_special self.now at }
    {
        at > self.special.max.as_usize() || is_named(&self.special, at)
    }

    /// Whether a row may have this number of ranges, and patterns or none.
    fn is_head(&self, at: usize, head: usize) -> bool
        ensures { result ≡ is_head self.now at head }
    {
        let count = head % 32768;
        if count < 1 {
            return false;
        }
        if count > 257 {
            return false;
        }
        if self.is_match(at) {
            head >= 32768
        } else {
            head < 32768
        }
    }

    /// Whether the number of a row's needles is there and allowed.
    fn has_count(&self, at: usize, bytes: &[u8]) -> bool
        ensures { result ≡ has_count (is_accel_id self.now.special at) bytes.now }
    {
        if bytes.is_empty() {
            return false;
        }
        if bytes[0] > 3 {
            return false;
        }
        if self.is_accel(at) {
            bytes[0] > 0
        } else {
            bytes[0] == 0
        }
    }

    /// The number that states how many ranges the row at a place has and whether it has patterns, and the bytes after
    /// it.
    #[tactic(auto, unfolding(crate::specs::Walks::head_at))]
    fn split_head<'a>(
        &self,
        at: usize,
        bytes: &'a [u8],
    ) -> Result<(usize, &'a [u8]), DeserializeError>
        ensures read { GivesExactly (λ x. (x.0, x.1.now)) result (head_at self.now at bytes.now) }
        ensures some { IfOk result (λ x. 1 ≤ range_count x.0) }
        ensures few { IfOk result (λ x. range_count x.0 ≤ 257) }
    {
        if !self.may_be_special(at) {
            return Err(DeserializeError::generic("a special row that is in no range"));
        }
        let (head, rest) = self.order.split_u16(bytes, "number of ranges")?;
        let head = head as usize;
        if !self.is_head(at, head) {
            return Err(DeserializeError::generic("another number of ranges than a row may have"));
        }
        Ok((head, rest))
    }

    /// Whether the range at an index is one of byte classes and begins after the range before it.
    fn is_range_at(&self, ends: &[u8], i: usize) -> bool
        requires { 2 * i + 1 < length ends.now }
        ensures { result ≡ is_range_at self.now.last_class ends.now i }
    {
        let first = ends[2 * i];
        let last = ends[2 * i + 1];
        first <= last && last <= self.last_class && (i == 0 || ends[2 * i - 1] < first)
    }

    /// Whether `count` ranges rise over byte classes, and the last is that of end of input.
    fn are_ends(&self, count: usize, ends: &[u8]) -> bool
        requires some { 1 ≤ count }
        requires len { length ends.now ≡ 2 * count }
        ensures { result ≡ are_ends self.now.last_class count ends.now }
    {
        for i in 0..count - 1 {
            if !self.is_range_at(ends, i) {
                return false;
            }
        }
        is_end_mark(count, ends)
    }

    /// The first and last classes of `count` ranges, and the bytes after them.
    #[tactic(auto, unfolding(crate::specs::Walks::ends_at))]
    fn split_ends<'a>(
        &self,
        count: usize,
        bytes: &'a [u8],
    ) -> Result<(&'a [u8], &'a [u8]), DeserializeError>
        requires { 1 ≤ count }
        ensures { GivesExactly (λ x. (x.0.now, x.1.now)) result (ends_at self.now count bytes.now) }
    {
        let (ends, rest) = split_items(count, 2, bytes, "ranges")?;
        if !self.are_ends(count, ends) {
            return Err(DeserializeError::generic("ranges that don't rise over byte classes"));
        }
        Ok((ends, rest))
    }

    /// Tests where a range leads.
    fn test_id(&self, id: u32) -> Result<(), DeserializeError>
        ensures { GivesExactly (λ _. id) result (tested_id self.now id) }
    {
        let what = "next row";
        match StateID::new(id as usize) {
            Err(err) => Err(DeserializeError::new(DeserializeErrorKind::StateID { err, what })),
            Ok(id) => {
                if id.as_usize() > self.len {
                    return Err(DeserializeError::buffer_too_small(what));
                }
                Ok(())
            }
        }
    }

    /// The ids of `count` next rows, and the bytes after them.
    #[tactic(auto, unfolding(crate::specs::Walks::next_ids_at))]
    fn split_next_ids<'a>(
        &self,
        count: usize,
        bytes: &'a [u8],
    ) -> Result<(&'a [u8], &'a [u8]), DeserializeError>
        ensures read { GivesExactly (λ x. (x.0.now, x.1.now)) result (next_ids_at self.now count bytes.now) }
        ensures len { IfOk result (λ x. length x.0.now ≡ 4 * count) }
    {
        let (ids, rest) = split_items(count, 4, bytes, "next rows")?;
        'each: for i in 0..count {
            self.test_id(word_at(self.order, ids, i))?;
        }
        Ok((ids, rest))
    }

    /// Tests a pattern of a match row.
    fn test_pattern(&self, id: u32) -> Result<(), DeserializeError>
        ensures { GivesExactly (λ _. id) result (tested_pattern self.now id) }
    {
        let what = "pattern of a match row";
        match PatternID::new(id as usize) {
            Err(err) => Err(DeserializeError::new(DeserializeErrorKind::PatternID { err, what })),
            Ok(id) => {
                if id.as_usize() >= self.pattern_len {
                    return Err(DeserializeError::generic("a match row of an unknown pattern"));
                }
                Ok(())
            }
        }
    }

    /// The bytes after the patterns of a match row.
    #[tactic(auto, unfolding(crate::specs::Walks::after_patterns))]
    fn after_patterns<'a>(&self, bytes: &'a [u8]) -> Result<&'a [u8], DeserializeError>
        ensures { GivesExactly (λ rest. rest.now) result (after_patterns self.now bytes.now) }
    {
        let (count, rest) = self.order.split_u32(bytes, "number of patterns")?;
        if count == 0 {
            return Err(DeserializeError::generic("a match row without patterns"));
        }
        let count = count as usize;
        let (ids, rest) = split_items(count, 4, rest, "patterns")?;
        'each: for i in 0..count {
            self.test_pattern(word_at(self.order, ids, i))?;
        }
        Ok(rest)
    }

    /// The bytes after the patterns, where the row is a match row.
    fn after_patterns_if<'a>(
        &self,
        is_match: bool,
        bytes: &'a [u8],
    ) -> Result<&'a [u8], DeserializeError>
        ensures { GivesExactly (λ rest. rest.now) result (after_patterns_if self.now is_match bytes.now) }
    {
        if is_match {
            self.after_patterns(bytes)
        } else {
            Ok(bytes)
        }
    }

    /// The needles of the row at a place, and the bytes after them.
    #[tactic(auto, unfolding(crate::specs::Walks::needles_at))]
    fn split_needles<'a>(
        &self,
        at: usize,
        bytes: &'a [u8],
    ) -> Result<(&'a [u8], &'a [u8]), DeserializeError>
        ensures { GivesExactly (λ x. (x.0.now, x.1.now)) result
            (needles_at (is_accel_id self.now.special at) bytes.now) }
    {
        if !self.has_count(at, bytes) {
            return Err(DeserializeError::generic("another number of needles than a row may have"));
        }
        let count = bytes[0] as usize;
        split_bytes(count, &bytes[1..], "needles")
    }

    /// Tests that end of input doesn't lead to quit, and that the place of the next row is an id.
    fn test_row(&self, eoi: u32, next: usize) -> Result<(), DeserializeError>
        ensures { GivesExactly (λ _. next) result (tested_next self.now eoi next) }
    {
        if eoi as usize == self.special.quit.as_usize() {
            return Err(DeserializeError::generic("the end mark leads to quit"));
        }
        let what = "next row's place";
        match StateID::new(next) {
            Err(err) => Err(DeserializeError::new(DeserializeErrorKind::StateID { err, what })),
            Ok(_) => Ok(()),
        }
    }

    /// The bytes after the row that begins at a place.
    #[tactic(auto, unfolding(crate::specs::Walks::row_at))]
    fn after_row<'a>(&self, at: usize, bytes: &'a [u8]) -> Result<&'a [u8], DeserializeError>
        requires { length bytes.now ≤ self.now.len }
        ensures read { GivesExactly (λ rest. (row_in self.now.order bytes.now, rest.now)) result
            (row_at self.now at bytes.now) }
        ensures rest { IfOk result (λ rest. rest.now
            ≡ drop (row_len (row_in self.now.order bytes.now)) bytes.now) }
    {
        let (head, rest) = self.split_head(at, bytes)?;
        let count = head % 32768;
        let (_, rest) = self.split_ends(count, rest)?;
        let (next_ids, rest) = self.split_next_ids(count, rest)?;
        let rest = self.after_patterns_if(head >= 32768, rest)?;
        let (_, rest) = self.split_needles(at, rest)?;
        self.test_row(
            word_at(self.order, next_ids, count - 1),
            self.len.saturating_sub(rest.len()),
        )?;
        Ok(rest)
    }
}

/// Tests all rows. Returns their number and where they begin.
pub fn walk(
    alloc: Global,
    bounds: &Bounds,
    bytes: &[u8],
) -> Result<(usize, RowSet), DeserializeError>
    requires { bounds.now.len ≡ length bytes.now }
    ensures read { Gives (λ x. rows_in bounds.now.order x.0 bytes.now) result (rows_at bounds.now bytes.now) }
    ensures whole { IfOk result (λ x. AreWholeRows bounds.now.order x.0 bytes.now) }
    ensures tested { IfOk result (λ x. AreTestedRows bounds.now (rows_in bounds.now.order x.0 bytes.now)) }
    ensures marks { IfOk result (λ x. Marks x.1 (offsets (rows_in bounds.now.order x.0 bytes.now))) }
{
    let mut rows = RowSet::new(alloc, bytes.len())?;
    let mut count = 0;
    let mut rest = bytes;
    'rows: while !rest.is_empty() {
        let at = bytes.len() - rest.len();
        rest = bounds.after_row(at, rest)?;
        rows.insert(at);
        count += 1;
    }
    Ok((count, rows))
}
