//! The rows of an image.

ghost use Rattle.std.specs.Prelude.{◌≡◌, ℕ, ◌-◌, ◌*◌, ◌%◌, ◌^◌, ◌<◌, ◌≤◌, length, slice_index, IfOk, IfErr, map};
ghost use Rattle.std.specs.Prelude.{nat_le, ◌&&◌};
ghost use Rattle.std.specs.List.{range_with_len};
ghost use Rattle.rx_base.specs.ByteClasses.{alphabet_len};
ghost use Rattle.rx_wire.specs.Kinds.{Gives, Kind};
ghost use Rattle.rx_dense_image.specs.Bulk.{AreOf, column_forbidden, column_mask, is_clean, stand_below};
ghost use Rattle.rx_dense_image.specs.Rows.{ArePadded, AreReadRows, IsStride, are_entries, cleared, cleared_words_at};
ghost use Rattle.rx_dense_image.specs.Rows.{fits_stride, rows_at, stride_of};
ghost use Rattle.rx_image_parts.specs.Words.{word_at};

use crate::bulk::{Columns, Wrong, all_bits};
use rx_base::{ByteClasses, StateID};
use rx_image_parts::{classes_of, count_of};
use rx_wire::{DeserializeError, Order, split_bytes, split_items};
use std::alloc::Global;
use std::marker::Model;

/// The number of columns that are prepared. Each stride divides it.
const COLUMNS: usize = 512;

/// The rows of an image.
#[derive(Drop)]
pub(crate) struct Rows {
    /// The class of each byte.
    pub classes: ByteClasses,
    /// The base-2 logarithm of a row's number of words.
    pub stride2: usize,
    /// The words: each row's next ids, then zeros up to the stride.
    pub words: Vec<u32>,
}

impl Model for Rows {
    ghost use Rattle.rx_dense_image.specs.Rows.{Rows};

    ghost Value = { Rows };

    ghost view = { λ r. record { classes = r.classes; stride2 = r.stride2; words = r.words.items } };
}

/// Whether a row of this stride has a column for each class and one for the end of input.
fn fits_stride(stride2: u32, classes: &ByteClasses) -> bool
    ensures { result ≡ fits_stride stride2 classes.now }
{
    1 <= stride2 && stride2 <= 9 && classes.alphabet_len() <= 1 << stride2
}

/// The stride.
#[tactic(auto, using(crate::proofs::Strides::shifted_few))]
fn stride(stride2: u32) -> usize
    requires { stride2 ≤ 9 }
    ensures value { result ≡ 2 ^ stride2 }
    ensures some { 0 < result }
    ensures most { result ≤ 512 }
{
    1 << stride2
}

/// The classes that some bytes spell, and the stride, which must have a column for each.
fn classes_and_stride(stride2: u32, bytes: &[u8]) -> Result<(ByteClasses, usize), DeserializeError>
    requires { length bytes.now ≡ 256 }
    ensures read { Gives (λ x. x.1) result (stride_of stride2 bytes.now) }
    ensures value { IfOk result (λ x. x.0 ≡ bytes.now) }
    ensures stride { IfOk result (λ x. IsStride bytes.now stride2 x.1) }
{
    let Some(classes) = classes_of(bytes) else {
        return Err(DeserializeError::generic("byte classes don't rise by 0 or 1 from 0"));
    };
    if !fits_stride(stride2, &classes) {
        return Err(DeserializeError::generic("the stride doesn't fit the byte classes"));
    }
    Ok((classes, stride(stride2)))
}

/// For each column, all bits if its word is kept, otherwise none.
fn column_masks(stride: usize, alphabet: usize) -> [u32; COLUMNS]
    requires { 0 < stride }
    ensures len { length result ≡ 512 }
    ensures each { (k : ℕ) → k < 512 → slice_index result k ≡ column_mask stride alphabet k }
{
    let mut masks = [0; COLUMNS];
    for k in 0..COLUMNS {
        masks[k] = column_mask(stride, alphabet, k);
    }
    masks
}

fn column_mask(stride: usize, alphabet: usize, column: usize) -> u32
    requires { 0 < stride }
    ensures { result ≡ column_mask stride alphabet column }
{
    all_bits(column % stride < alphabet)
}

/// For each column, the number that it forbids: in the column of the end of input the id of the quit row, elsewhere a
/// number that is no id.
fn column_forbidden(stride: usize, alphabet: usize) -> [u32; COLUMNS]
    requires some { 0 < stride }
    requires most { stride ≤ 512 }
    requires alphabet { 0 < alphabet }
    ensures len { length result ≡ 512 }
    ensures each { (k : ℕ) → k < 512 → slice_index result k ≡ column_forbidden stride alphabet k }
{
    let mut forbidden = [0; COLUMNS];
    for k in 0..COLUMNS {
        forbidden[k] = forbidden_in(stride, alphabet, k);
    }
    forbidden
}

fn forbidden_in(stride: usize, alphabet: usize, column: usize) -> u32
    requires some { 0 < stride }
    requires most { stride ≤ 512 }
    requires alphabet { 0 < alphabet }
    ensures { result ≡ column_forbidden stride alphabet column }
{
    if column % stride == alphabet - 1 {
        stride as u32
    } else {
        u32::MAX
    }
}

/// Whether nothing is wrong with the words of rows. `last` is the id of the last row.
fn is_clean(wrong: Wrong, stride2: u32, last: usize) -> bool
    requires { stride2 ≤ 9 }
    ensures { result ≡ is_clean (2 ^ stride2) last wrong }
{
    wrong.low % (1 << stride2) == 0 && wrong.greatest as usize <= last && wrong.forbidden == 0
}

/// How rows are laid out.
#[derive(Clone, Copy)]
struct RowShape {
    stride2: u32,
    /// How many columns a row has.
    alphabet: usize,
    /// The id of the last row.
    last: usize,
}

/// The columns of rows.
fn columns_of<'a>(
    order: Order,
    shape: RowShape,
    kept: &'a [u32],
    forbidden: &'a [u32],
) -> Columns<'a>
    requires stride2 { shape.stride2 ≤ 9 }
    requires len { length kept.now ≡ 512 }
    requires kept { (k : ℕ) → k < 512 → slice_index kept.now k ≡ column_mask (2 ^ shape.stride2) shape.alphabet k }
    requires forbidden { (k : ℕ) → k < 512
        → slice_index forbidden.now k ≡ column_forbidden (2 ^ shape.stride2) shape.alphabet k }
    ensures order { result.order ≡ order }
    ensures forbidden { result.forbidden.now ≡ forbidden.now }
    ensures of { AreOf result shape.stride2 shape.alphabet }
{
    Columns {
        order,
        kept,
        forbidden,
    }
}

/// Reads the words of rows. Also returns whether each passes its test. Their bytes are known to be there, so a false
/// count takes no memory.
fn row_words(
    alloc: Global,
    order: Order,
    shape: RowShape,
    bytes: &[u8],
    count: usize,
) -> Result<(Vec<u32>, bool), DeserializeError>
    requires bytes { length bytes.now ≡ 4 * count }
    requires stride2 { shape.stride2 ≤ 9 }
    requires alphabet { 0 < shape.alphabet }
    ensures memory { IfErr result (λ kind. kind ≡ Kind.Memory) }
    ensures words { IfOk result (λ x. x.0.items
        ≡ map (λ k. cleared (2 ^ shape.stride2) shape.alphabet k (word_at order bytes.now k))
        (range_with_len 0 count)) }
    ensures len { IfOk result (λ x. length x.0.items ≡ count) }
    ensures past { IfOk result (λ x. ArePadded (2 ^ shape.stride2) shape.alphabet x.0.items) }
    ensures sound { IfOk result (λ x. x.1 ≡ stand_below (2 ^ shape.stride2) shape.alphabet shape.last x.0.items) }
{
    let stride = stride(shape.stride2);
    let kept = column_masks(stride, shape.alphabet);
    let forbidden = column_forbidden(stride, shape.alphabet);
    let columns = columns_of(order, shape, &kept, &forbidden);
    let (words, wrong) = columns.read(alloc, bytes, count)?;
    let sound = is_clean(wrong, shape.stride2, shape.last);
    Ok((words, sound))
}

/// The words of the rows, and the bytes after them. Their number is multiplied by the stride only after the bytes are
/// known to be there.
#[tactic(auto, unfolding(crate::specs::Rows::cleared_words_at))]
fn split_row_words<'a>(
    alloc: Global,
    order: Order,
    shape: RowShape,
    count: usize,
    bytes: &'a [u8],
) -> Result<((Vec<u32>, bool), &'a [u8]), DeserializeError>
    requires stride2 { shape.stride2 ≤ 9 }
    requires alphabet { 0 < shape.alphabet }
    ensures read { Gives (λ x. (x.0.0.items, x.1.now)) result
        (cleared_words_at order (2 ^ shape.stride2) shape.alphabet count bytes.now) }
    ensures len { IfOk result (λ x. length x.0.0.items ≡ count) }
    ensures past { IfOk result (λ x. ArePadded (2 ^ shape.stride2) shape.alphabet x.0.0.items) }
    ensures sound { IfOk result
        (λ x. x.0.1 ≡ stand_below (2 ^ shape.stride2) shape.alphabet shape.last x.0.0.items) }
{
    let (front, rest) = split_items(count, 4, bytes, "transition table")?;
    let words = row_words(alloc, order, shape, front, count)?;
    Ok((words, rest))
}

/// Whether all rows have ids and nothing is wrong with their words.
fn have_ids(greatest: usize, sound: bool) -> bool
    ensures { result ≡ (nat_le greatest 2147483646 && sound) }
{
    greatest <= StateID::MAX.as_usize() && sound
}

/// The rows, and whether each word is the id of a row and no row leads to quit on the end of input.
#[tactic(auto, unfolding(crate::specs::Rows::rows_at))]
pub(crate) fn split_rows<'a>(
    alloc: Global,
    order: Order,
    bytes: &'a [u8],
) -> Result<((Rows, bool), &'a [u8]), DeserializeError>
    ensures read { Gives (λ x. (x.0.0, x.1.now)) result (rows_at order bytes.now) }
    ensures rows { IfOk result (λ x. AreReadRows x.0.0) }
    ensures sound { IfOk result (λ x. x.0.1 ≡ are_entries x.0.0) }
{
    let (rows, rest) = order.split_u32(bytes, "state length")?;
    let (stride2, rest) = order.split_u32(rest, "stride2")?;
    let (class_bytes, rest) = split_bytes(256, rest, "byte classes")?;
    let (classes, stride) = classes_and_stride(stride2, class_bytes)?;
    let rows = count_of(rows);
    let count = rows * stride;
    let greatest = count.saturating_sub(stride);
    let shape = RowShape {
        stride2,
        alphabet: classes.alphabet_len(),
        last: greatest,
    };
    let ((words, sound), rest) = split_row_words(alloc, order, shape, count, rest)?;
    let sound = have_ids(greatest, sound);
    let rows = Rows {
        classes,
        stride2: stride2 as usize,
        words,
    };
    Ok(((rows, sound), rest))
}
