//! The patterns of match rows in an image.

ghost use Rattle.std.specs.Prelude.{◌≤◌, IfOk};
ghost use Rattle.rx_spec.specs.Causes.{id_count};
ghost use Rattle.rx_wire.specs.Kinds.{Gives};
ghost use Rattle.rx_dense_image.specs.PatternLists.{AreReadLists, pattern_len_at, pattern_lists_at};

use rx_base::PatternID;
use rx_image_parts::{count_of, split_words};
use rx_wire::{DeserializeError, Order};
use std::alloc::Global;
use std::marker::Model;

/// The patterns of match rows.
#[derive(Drop)]
pub(crate) struct PatternLists {
    /// Two words for each match row: where its patterns begin among the pattern ids, and their number.
    pub slices: Vec<u32>,
    /// The number of patterns.
    pub pattern_len: usize,
    /// The patterns of all match rows.
    pub pattern_ids: Vec<u32>,
}

impl Model for PatternLists {
    ghost use Rattle.rx_dense_image.specs.PatternLists.{PatternLists};

    ghost Value = { PatternLists };

    ghost view = { λ l. record {
      slices = l.slices.items;
      pattern_len = l.pattern_len;
      pattern_ids = l.pattern_ids.items;
    } };
}

#[tactic(auto, unfolding(crate::specs::PatternLists::pattern_len_at))]
fn split_pattern_len(order: Order, bytes: &[u8]) -> Result<(usize, &[u8]), DeserializeError>
    ensures read { Gives (λ x. (x.0, x.1.now)) result (pattern_len_at order bytes.now) }
    ensures few { IfOk result (λ x. x.0 ≤ id_count) }
{
    let (number, rest) = order.split_u32(bytes, "pattern length")?;
    let pattern_len = number as usize;
    if pattern_len > PatternID::LIMIT {
        return Err(DeserializeError::generic("too many patterns"));
    }
    Ok((pattern_len, rest))
}

/// The lists of the match rows, and the bytes after them.
#[tactic(auto, unfolding(crate::specs::PatternLists::pattern_lists_at))]
pub(crate) fn split_pattern_lists<'a>(
    alloc: Global,
    order: Order,
    bytes: &'a [u8],
) -> Result<(PatternLists, &'a [u8]), DeserializeError>
    ensures read { Gives (λ x. (x.0, x.1.now)) result (pattern_lists_at order bytes.now) }
    ensures lists { IfOk result (λ x. AreReadLists x.0) }
{
    let (rows, rest) = order.split_u32(bytes, "match state length")?;
    let rows = count_of(rows);
    let (slices, rest) = split_words(alloc, order, 2 * rows, rest, "match slices")?;
    let (pattern_len, rest) = split_pattern_len(order, rest)?;
    let (count, rest) = order.split_u32(rest, "pattern ID length")?;
    let count = count_of(count);
    let (pattern_ids, rest) = split_words(alloc, order, count, rest, "pattern IDs")?;
    let lists = PatternLists {
        slices,
        pattern_len,
        pattern_ids,
    };
    Ok((lists, rest))
}
