//! The start table of an image, whose ids stay where they are.

ghost use Rattle.std.specs.Prelude.{◌≡◌, ◌*◌, ◌/◌, ◌%◌, IfOk, length};
ghost use Rattle.rx_wire.specs.Kinds.{Gives};
ghost use Rattle.rx_image_parts.specs.StartTables.{IsReadStartTable, start_table_at};
ghost use Rattle.rx_image_parts.specs.Words.{words_at};
ghost use Rattle.rx_sparse.specs.Rows.{words_in};
ghost use Rattle.rx_sparse_image.specs.Reading.{seen_table};

use rx_base::{Start, StartKind, StateID};
use rx_image_parts::{split_pattern_starts, split_start_kinds, split_universal, start_entries};
use rx_wire::{DeserializeError, Order, split_items};

/// The start table of an image.
#[derive(Drop)]
pub(crate) struct StartTable<'a> {
    /// For which modes there are start rows.
    pub start_kind: StartKind,
    /// The start context of each byte.
    pub contexts: [Start; 256],
    /// The number of patterns with start rows of their own, if there are such.
    pub pattern_starts: Option<usize>,
    /// The start row of an unanchored search if it is the same for each byte beside the span.
    pub universal_unanchored: Option<StateID>,
    /// The start row of an anchored search if it is the same for each byte beside the span.
    pub universal_anchored: Option<StateID>,
    /// The bytes of the ids of the start rows.
    pub starts: &'a [u8],
}

/// The bytes of `count` ids of start rows, and the bytes after them.
#[tactic(auto, unfolding(rx_image_parts::specs::Words::words_at))]
fn split_start_ids<'a>(
    order: Order,
    count: usize,
    bytes: &'a [u8],
) -> Result<(&'a [u8], &'a [u8]), DeserializeError>
    ensures read { Gives (λ x. (words_in order (length x.0.now / 4) x.0.now, x.1.now)) result
        (words_at order count bytes.now) }
    ensures len { IfOk result (λ x. length x.0.now ≡ 4 * count) }
    ensures count { IfOk result (λ x. length (words_in order (length x.0.now / 4) x.0.now) ≡ count) }
{
    let (front, rest) = split_items(count, 4, bytes, "start ids")?;
    Ok((front, rest))
}

/// The start table, and the bytes after it.
#[tactic(auto, unfolding(rx_image_parts::specs::StartTables::start_table_at))]
pub(crate) fn split_start_table<'a>(
    order: Order,
    bytes: &'a [u8],
) -> Result<(StartTable<'a>, &'a [u8]), DeserializeError>
    ensures read { Gives (λ x. (seen_table order x.0, x.1.now)) result (start_table_at order bytes.now) }
    ensures table { IfOk result (λ x. IsReadStartTable (seen_table order x.0)) }
    ensures whole { IfOk result (λ x. length x.0.starts.now % 4 ≡ 0) }
{
    let ((start_kind, contexts), rest) = split_start_kinds(order, bytes)?;
    let (pattern_starts, rest) = split_pattern_starts(order, rest)?;
    let (universal_unanchored, rest) = split_universal(order, rest, "universal unanchored start")?;
    let (universal_anchored, rest) = split_universal(order, rest, "universal anchored start")?;
    let (starts, rest) = split_start_ids(order, start_entries(pattern_starts), rest)?;
    let table = StartTable {
        start_kind,
        contexts,
        pattern_starts,
        universal_unanchored,
        universal_anchored,
        starts,
    };
    Ok((table, rest))
}
