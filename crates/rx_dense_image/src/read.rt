//! Reads the parts of whole images.

ghost use Rattle.std.specs.Prelude.{◌≡◌, IfOk};
ghost use Rattle.rx_wire.specs.Kinds.{Gives};
ghost use Rattle.rx_dense.specs.Parts.{layout_of};
ghost use Rattle.rx_dense_image.specs.Rows.{are_entries, rows_of};
ghost use Rattle.rx_dense_image.specs.Images.{IsRead, joined, parts_at};

use crate::head::split_dense_head;
use crate::marks::{Marks, split_marks};
use crate::pattern_lists::{PatternLists, split_pattern_lists};
use crate::rows::{Rows, split_rows};
use crate::start_table::{StartTable, split_start_table};
use rx_dense::{Flags, Parts};
use rx_wire::DeserializeError;
use std::alloc::Global;

/// The parts of a table.
fn parts_of(flags: Flags, rows: Rows, table: StartTable, lists: PatternLists, marks: Marks) -> Parts
    ensures { layout_of result ≡ joined flags rows table lists marks }
{
    let contexts = table.contexts;
    Parts {
        flags,
        classes: rows.classes,
        stride2: rows.stride2,
        words: rows.words,
        start_kind: table.start_kind,
        contexts,
        start_pattern_len: table.pattern_starts,
        start_ids: table.starts,
        universal_unanchored: table.universal_unanchored,
        universal_anchored: table.universal_anchored,
        slices: lists.slices,
        pattern_ids: lists.pattern_ids,
        pattern_len: lists.pattern_len,
        special: marks.special,
        accels: marks.accels,
        quitset: marks.quitset,
    }
}

/// The parts of a table, whether each word of its rows passes its test, and the bytes after the image.
#[tactic(auto, unfolding(crate::specs::Images::parts_at))]
pub fn split_parts(alloc: Global, bytes: &[u8]) -> Result<((Parts, bool), &[u8]), DeserializeError>
    ensures read { Gives (λ x. (layout_of x.0.0, x.1.now)) result (parts_at bytes.now) }
    ensures parts { IfOk result (λ x. IsRead (layout_of x.0.0)) }
    ensures sound { IfOk result (λ x. x.0.1 ≡ are_entries (rows_of (layout_of x.0.0))) }
{
    let ((flags, order), rest) = split_dense_head(bytes)?;
    let ((rows, sound), rest) = split_rows(alloc, order, rest)?;
    let (table, rest) = split_start_table(alloc, order, rest)?;
    let (lists, rest) = split_pattern_lists(alloc, order, rest)?;
    let (marks, rest) = split_marks(alloc, order, rows.words.len(), rest)?;
    let parts = parts_of(flags, rows, table, lists, marks);
    Ok(((parts, sound), rest))
}
