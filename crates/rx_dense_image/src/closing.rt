//! The tests of all parts of an image together.

ghost use Rattle.std.specs.Prelude.{◌≡◌, ℕ, ◌+◌, ◌*◌, ◌^◌, ◌<◌, ◌≤◌, ◌==◌, IfErr, IfOk, Option, length, take};
ghost use Rattle.std.specs.Prelude.{slice_index, true, false};
ghost use Rattle.std.specs.List.{list_all};
ghost use Rattle.std.specs.Str.{bytes_eq};
ghost use Rattle.rx_wire.specs.Kinds.{Kind};
ghost use Rattle.rx_dense.specs.Parts.{layout_of};
ghost use Rattle.rx_dense.specs.Specials.{is_in_range};
ghost use Rattle.rx_dense.specs.Layouts.{IsRowId, is_row_id, next_id, stride};
ghost use Rattle.rx_dense_image.specs.Rows.{AreReadRows, are_entries, rows_of};
ghost use Rattle.rx_dense_image.specs.PatternLists.{AreReadLists};
ghost use Rattle.rx_dense_image.specs.Closing.{accels_stand, are_lists, are_named, are_special_rows, has_needles};
ghost use Rattle.rx_dense_image.specs.Closing.{is_closed, is_list, is_start_row, is_universal, leaving_id};
ghost use Rattle.rx_dense_image.specs.Closing.{lists_stand, range_len, rows_stand, special_stand, starts_stand};
ghost use Rattle.rx_image_parts.specs.SpecialIds.{is_named};
ghost use Rattle.rx_dense_image.specs.Images.{IsRead, pattern_lists_of};
ghost use Rattle.rx_dense_image.specs.Counts.{is_stranger, strangers};

use rx_base::StateID;
use rx_dense::{Parts, Special};
use rx_image_parts::{is_in_range, is_named};
use rx_wire::DeserializeError;
use std::alloc::Global;

/// The number of words of a row.
#[tactic(auto, using(crate::proofs::Strides::shifted_few))]
fn stride(parts: &Parts) -> usize
    requires { AreReadRows (rows_of (layout_of parts.now)) }
    ensures value { result ≡ stride (layout_of parts.now) }
    ensures some { 0 < result }
    ensures most { result ≤ 512 }
{
    1 << parts.stride2
}

/// Whether a number is the id of a row.
fn is_row_id(parts: &Parts, id: usize) -> bool
    requires { AreReadRows (rows_of (layout_of parts.now)) }
    ensures { result ≡ is_row_id (layout_of parts.now) id }
{
    id % stride(parts) == 0 && id < parts.words.len()
}

/// Whether all words are 0.
fn are_zero(words: &[u32]) -> bool
    ensures { result ≡ list_all (λ word. word == 0) words.now }
{
    words.iter().all(|word| *word == 0)
}

/// Whether there are at least two rows, each word is a row's id, no row leads to quit on the end of input, and the
/// first two rows lead to dead. The words were tested as they were read (`sound`).
fn rows_stand(parts: &Parts, sound: bool) -> bool
    requires rows { AreReadRows (rows_of (layout_of parts.now)) }
    requires sound { sound ≡ are_entries (rows_of (layout_of parts.now)) }
    ensures { result ≡ rows_stand (layout_of parts.now) }
{
    let stride = stride(parts);
    if parts.words.len() / stride < 2 {
        return false;
    }
    if !sound {
        return false;
    }
    are_zero(&parts.words.as_slice()[..2 * stride])
}

/// Whether the special ids are ids of rows, and the quit row is row 1.
fn are_special_rows(parts: &Parts, s: &Special) -> bool
    requires { AreReadRows (rows_of (layout_of parts.now)) }
    ensures { result ≡ are_special_rows (layout_of parts.now) s.now }
{
    is_row_id(parts, s.max.as_usize())
        && s.quit.as_usize() == stride(parts)
        && is_row_id(parts, s.min_match.as_usize())
        && is_row_id(parts, s.max_match.as_usize())
        && is_row_id(parts, s.min_accel.as_usize())
        && is_row_id(parts, s.max_accel.as_usize())
        && is_row_id(parts, s.min_start.as_usize())
        && is_row_id(parts, s.max_start.as_usize())
}

/// Whether each row up to the greatest special one is dead, quit or in a special range.
fn are_named(parts: &Parts) -> bool
    requires { AreReadRows (rows_of (layout_of parts.now)) }
    ensures { result ≡ are_named (layout_of parts.now) }
{
    let stride = stride(parts);
    let rows = parts.special.max.as_usize() / stride + 1;
    for row in 0..rows {
        if !is_named(&parts.special, row * stride) {
            return false;
        }
    }
    true
}

/// Whether the special ids are ids of rows, and each row up to the greatest special one is special.
fn special_stand(parts: &Parts) -> bool
    requires { AreReadRows (rows_of (layout_of parts.now)) }
    ensures { result ≡ special_stand (layout_of parts.now) }
{
    are_special_rows(parts, &parts.special) && are_named(parts)
}

/// Whether a search may start in a row: it neither matches nor quits.
fn is_start_row(parts: &Parts, id: usize) -> bool
    requires { AreReadRows (rows_of (layout_of parts.now)) }
    ensures { result ≡ is_start_row (layout_of parts.now) id }
{
    is_row_id(parts, id)
        && !is_in_range(parts.special.min_match, parts.special.max_match, id)
        && id != stride(parts)
}

fn are_start_rows(parts: &Parts) -> bool
    requires { AreReadRows (rows_of (layout_of parts.now)) }
    ensures { result ≡ list_all (is_start_row (layout_of parts.now)) parts.now.start_ids.items }
{
    parts
        .start_ids
        .iter()
        .all(|id| is_start_row(parts, *id as usize))
}

/// Whether a universal start, if there is one, is a row.
fn is_universal(parts: &Parts, start: Option<StateID>) -> bool
    requires { AreReadRows (rows_of (layout_of parts.now)) }
    ensures { result ≡ is_universal (layout_of parts.now) start }
{
    match start {
        None => true,
        Some(id) => is_row_id(parts, id.as_usize()),
    }
}

/// Whether all start rows neither match nor quit, and universal starts are rows.
fn starts_stand(parts: &Parts) -> bool
    requires { AreReadRows (rows_of (layout_of parts.now)) }
    ensures { result ≡ starts_stand (layout_of parts.now) }
{
    are_start_rows(parts)
        && is_universal(parts, parts.universal_unanchored)
        && is_universal(parts, parts.universal_anchored)
}

/// The number of rows of a range of ids.
fn range_len(parts: &Parts, first: StateID, last: StateID) -> usize
    requires { AreReadRows (rows_of (layout_of parts.now)) }
    ensures { result ≡ range_len (layout_of parts.now) first last }
{
    if first == StateID::ZERO {
        return 0;
    }
    last.as_usize().saturating_sub(first.as_usize()) / stride(parts) + 1
}

/// Whether a number among the pattern ids isn't the id of a pattern.
fn is_stranger(id: u32, pattern_len: usize) -> bool
    ensures { result ≡ is_stranger pattern_len id }
{
    id as usize >= pattern_len
}

/// For each prefix of the pattern ids, how many of them aren't ids of patterns. With these counts each list of ids is
/// tested at once, however many match rows name it.
fn strangers(alloc: Global, ids: &[u32], pattern_len: usize) -> Result<Vec<u32>, DeserializeError>
    requires { length ids.now < 2 ^ 32 }
    ensures len { IfOk result (λ counts. length counts.items ≡ length ids.now + 1) }
    ensures counts { IfOk result (λ counts. (k : ℕ) → k ≤ length ids.now
        → slice_index counts.items k ≡ strangers pattern_len (take k ids.now)) }
    ensures memory { IfErr result (λ kind. kind ≡ Kind.Memory) }
{
    let mut counts = vec![in alloc; 0; ids.len() + 1]?;
    let mut count = 0;
    for i in 0..ids.len() {
        if is_stranger(ids[i], pattern_len) {
            count += 1;
        }
        counts[i + 1] = count;
    }
    Ok(counts)
}

/// Whether the patterns of a match row lie among the pattern ids, are at least one, and are patterns.
fn is_list(parts: &Parts, counts: &[u32], i: usize) -> bool
    requires i { 2 * i + 1 < length parts.now.slices.items }
    requires len { length counts.now ≡ length parts.now.pattern_ids.items + 1 }
    requires counts { (k : ℕ) → k ≤ length parts.now.pattern_ids.items
        → slice_index counts.now k ≡ strangers parts.now.pattern_len (take k parts.now.pattern_ids.items) }
    ensures { result ≡ is_list (layout_of parts.now) i }
{
    let first = parts.slices[2 * i] as usize;
    let len = parts.slices[2 * i + 1] as usize;
    let count = parts.pattern_ids.len();
    if first >= count {
        return false;
    }
    if first + len > count {
        return false;
    }
    if len == 0 {
        return false;
    }
    counts[first] == counts[first + len]
}

fn are_lists(parts: &Parts, counts: &[u32]) -> bool
    requires len { length counts.now ≡ length parts.now.pattern_ids.items + 1 }
    requires counts { (k : ℕ) → k ≤ length parts.now.pattern_ids.items
        → slice_index counts.now k ≡ strangers parts.now.pattern_len (take k parts.now.pattern_ids.items) }
    ensures { result ≡ are_lists (layout_of parts.now) }
{
    for i in 0..parts.slices.len() / 2 {
        if !is_list(parts, counts, i) {
            return false;
        }
    }
    true
}

/// Whether each match row has a list of patterns.
fn lists_stand(alloc: Global, parts: &Parts) -> Result<bool, DeserializeError>
    requires rows { AreReadRows (rows_of (layout_of parts.now)) }
    requires lists { AreReadLists (pattern_lists_of (layout_of parts.now)) }
    ensures exactly { IfOk result (λ stand. stand ≡ lists_stand (layout_of parts.now)) }
    ensures memory { IfErr result (λ kind. kind ≡ Kind.Memory) }
{
    let special = &parts.special;
    if parts.slices.len() / 2 != range_len(parts, special.min_match, special.max_match) {
        return Ok(false);
    }
    let counts = strangers(alloc, parts.pattern_ids.as_slice(), parts.pattern_len)?;
    Ok(are_lists(parts, counts.as_slice()))
}

/// The id to which a byte leads from a row.
fn next_id(parts: &Parts, id: usize, byte: u8) -> usize
    requires rows { AreReadRows (rows_of (layout_of parts.now)) }
    requires row { IsRowId (layout_of parts.now) id }
    ensures { result ≡ next_id (layout_of parts.now) id byte }
{
    parts.words[id + parts.classes.get(byte) as usize] as usize
}

/// Whether `needles` are exactly the bytes on which a row leads elsewhere, in rising order.
fn are_leaving(parts: &Parts, id: usize, needles: &[u8]) -> bool
    requires rows { AreReadRows (rows_of (layout_of parts.now)) }
    requires row { IsRowId (layout_of parts.now) id }
    ensures { result ≡ bytes_eq needles.now (leaving_id (layout_of parts.now) id) }
{
    let mut met = 0;
    for byte in 0..256 {
        if next_id(parts, id, byte as u8) != id {
            if met >= needles.len() {
                return false;
            }
            if needles[met] as usize != byte {
                return false;
            }
            met += 1;
        }
    }
    met == needles.len()
}

/// Whether an accelerated row has its needles.
fn has_needles(parts: &Parts, i: usize, id: usize) -> bool
    requires rows { AreReadRows (rows_of (layout_of parts.now)) }
    requires i { i < length parts.now.accels }
    requires id { id ≡ parts.now.special.min_accel + i * stride (layout_of parts.now) }
    requires row { IsRowId (layout_of parts.now) id }
    ensures { result ≡ has_needles (layout_of parts.now) i }
{
    let needles = parts.accels.needles(i);
    needles.len() >= 1 && are_leaving(parts, id, needles.as_slice())
}

/// Whether each accelerated row has its needles: one to three bytes, exactly those on which it leads elsewhere.
fn accels_stand(parts: &Parts) -> bool
    requires rows { AreReadRows (rows_of (layout_of parts.now)) }
    requires special { are_special_rows (layout_of parts.now) parts.now.special ≡ true }
    ensures { result ≡ accels_stand (layout_of parts.now) }
{
    let special = &parts.special;
    let len = parts.accels.len();
    if len != range_len(parts, special.min_accel, special.max_accel) {
        return false;
    }
    let stride = stride(parts);
    let first = special.min_accel.as_usize();
    for i in 0..len {
        if !has_needles(parts, i, first + i * stride) {
            return false;
        }
    }
    true
}

/// Whether all tests of the parts together succeed.
pub fn is_closed(alloc: Global, parts: &Parts, sound: bool) -> Result<bool, DeserializeError>
    requires read { IsRead (layout_of parts.now) }
    requires sound { sound ≡ are_entries (rows_of (layout_of parts.now)) }
    ensures exactly { IfOk result (λ closed. closed ≡ is_closed (layout_of parts.now)) }
    ensures memory { IfErr result (λ kind. kind ≡ Kind.Memory) }
{
    if !rows_stand(parts, sound) {
        return Ok(false);
    }
    if !special_stand(parts) {
        return Ok(false);
    }
    if !starts_stand(parts) {
        return Ok(false);
    }
    if !lists_stand(alloc, parts)? {
        return Ok(false);
    }
    Ok(accels_stand(parts))
}
