//! The rows of an image before they are tested, and what comes before them.

ghost use Rattle.std.specs.Prelude.{◌≡◌, ◌≤◌, ◌^◌, ◌<◌, IfOk, length};
ghost use Rattle.rx_spec.specs.Causes.{id_count};
ghost use Rattle.rx_wire.specs.Kinds.{Gives};
ghost use Rattle.rx_sparse_image.specs.RowBytes.{AreReadBytes, row_bytes_at, settings_at, tested_classes};

use rx_base::{ByteClasses, PatternID};
use rx_image_parts::{classes_of, count_of};
use rx_wire::{DeserializeError, Order, split_bytes};
use std::marker::Model;

/// Rows that aren't tested yet.
#[derive(Drop)]
pub(crate) struct RowBytes<'a> {
    /// The number of rows that the image states.
    pub state_len: usize,
    /// The number of patterns.
    pub pattern_len: usize,
    /// The class of each byte.
    pub classes: ByteClasses,
    /// The bytes of the rows.
    pub rows: &'a [u8],
}

impl<'a> Model for RowBytes<'a> {
    ghost use Rattle.rx_sparse_image.specs.RowBytes.{RowBytes};

    ghost Value = { RowBytes };

    ghost view = { λ r. record {
      state_len = r.state_len;
      pattern_len = r.pattern_len;
      classes = r.classes;
      rows = r.rows.now;
    } };
}

/// The classes that some bytes spell. Tests the number of patterns, which comes before them, first.
fn tested_classes(pattern_len: usize, bytes: &[u8]) -> Result<ByteClasses, DeserializeError>
    requires { length bytes.now ≡ 256 }
    ensures read { Gives (λ classes. classes) result (tested_classes pattern_len bytes.now) }
    ensures few { IfOk result (λ _. pattern_len ≤ id_count) }
{
    if pattern_len > PatternID::LIMIT {
        return Err(DeserializeError::generic("too many patterns"));
    }
    match classes_of(bytes) {
        None => Err(DeserializeError::generic("byte classes don't rise by 0 or 1 from 0")),
        Some(classes) => Ok(classes),
    }
}

/// The number of patterns and the classes, and the bytes after them.
#[tactic(auto, unfolding(crate::specs::RowBytes::settings_at))]
fn split_settings(
    order: Order,
    bytes: &[u8],
) -> Result<((usize, ByteClasses), &[u8]), DeserializeError>
    ensures read { Gives (λ x. ((x.0.0, x.0.1), x.1.now)) result (settings_at order bytes.now) }
    ensures few { IfOk result (λ x. x.0.0 ≤ id_count) }
{
    let (pattern_len, rest) = order.split_u32(bytes, "pattern length")?;
    let (front, rest) = split_bytes(256, rest, "byte classes")?;
    let classes = tested_classes(count_of(pattern_len), front)?;
    Ok(((count_of(pattern_len), classes), rest))
}

/// The rows, untested, and the bytes after them.
#[tactic(auto, unfolding(crate::specs::RowBytes::row_bytes_at))]
pub(crate) fn split_row_bytes(
    order: Order,
    bytes: &[u8],
) -> Result<(RowBytes<'_>, &[u8]), DeserializeError>
    ensures read { Gives (λ x. (x.0, x.1.now)) result (row_bytes_at order bytes.now) }
    ensures bytes { IfOk result (λ x. AreReadBytes x.0) }
{
    let (state_len, rest) = order.split_u32(bytes, "state length")?;
    let ((pattern_len, classes), rest) = split_settings(order, rest)?;
    let (len, rest) = order.split_u32(rest, "length of the rows")?;
    let (rows, rest) = split_bytes(count_of(len), rest, "rows")?;
    let bytes = RowBytes {
        state_len: count_of(state_len),
        pattern_len,
        classes,
        rows,
    };
    Ok((bytes, rest))
}
