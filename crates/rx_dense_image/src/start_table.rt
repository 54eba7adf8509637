//! The start table of an image.

ghost use Rattle.std.specs.Prelude.{◌<◌, IfOk, Option};
ghost use Rattle.rx_wire.specs.Kinds.{Gives};
ghost use Rattle.rx_dense.specs.Layouts.{start_entries};
ghost use Rattle.rx_image_parts.specs.StartTables.{IsReadStartTable, start_table_at};

use rx_base::{Start, StartKind, StateID};
use rx_image_parts::{
    split_pattern_starts, split_start_kinds, split_universal, split_words, start_entries,
};
use rx_wire::{DeserializeError, Order};
use std::alloc::Global;
use std::marker::Model;

/// The start table of an image.
#[derive(Drop)]
pub(crate) struct StartTable {
    /// For which modes there are start rows.
    pub start_kind: StartKind,
    /// The start context of each byte.
    pub contexts: [Start; 256],
    /// The number of patterns with start rows of their own, if there are such.
    pub pattern_starts: Option<usize>,
    /// The start row of an unanchored search if it is the same for each byte beside the span.
    pub universal_unanchored: Option<StateID>,
    /// The start row of an anchored search if it is the same for each byte beside the span.
    pub universal_anchored: Option<StateID>,
    /// The ids of the start rows.
    pub starts: Vec<u32>,
}

impl Model for StartTable {
    ghost use Rattle.rx_image_parts.specs.StartTables.{StartTable};

    ghost Value = { StartTable };

    ghost view = { λ t. record {
      start_kind = t.start_kind;
      contexts = t.contexts;
      pattern_starts = t.pattern_starts;
      universal_unanchored = t.universal_unanchored;
      universal_anchored = t.universal_anchored;
      starts = t.starts.items;
    } };
}

/// The start table, and the bytes after it.
#[tactic(auto, unfolding(rx_image_parts::specs::StartTables::start_table_at))]
pub(crate) fn split_start_table<'a>(
    alloc: Global,
    order: Order,
    bytes: &'a [u8],
) -> Result<(StartTable, &'a [u8]), DeserializeError>
    ensures read { Gives (λ x. (x.0, x.1.now)) result (start_table_at order bytes.now) }
    ensures table { IfOk result (λ x. IsReadStartTable x.0) }
{
    let ((start_kind, contexts), rest) = split_start_kinds(order, bytes)?;
    let (pattern_starts, rest) = split_pattern_starts(order, rest)?;
    let (universal_unanchored, rest) = split_universal(order, rest, "universal unanchored start")?;
    let (universal_anchored, rest) = split_universal(order, rest, "universal anchored start")?;
    let count = start_entries(pattern_starts);
    let (starts, rest) = split_words(alloc, order, count, rest, "start ids")?;
    let table = StartTable {
        start_kind,
        contexts,
        pattern_starts,
        universal_unanchored,
        universal_anchored,
        starts,
    };
    Ok((table, rest))
}
