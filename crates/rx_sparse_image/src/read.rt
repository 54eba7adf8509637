//! Reads the parts of whole images.

ghost use Rattle.std.specs.Prelude.{◌≡◌, IfOk};
ghost use Rattle.rx_wire.specs.Kinds.{Gives};
ghost use Rattle.rx_sparse_image.specs.Reading.{IsReadImage, seen_image};
ghost use Rattle.rx_sparse_image.specs.Images.{bounds_of, parts_at};

use crate::row_bytes::split_row_bytes;
use crate::rows::Bounds;
use crate::start_table::split_start_table;
use rx_image_parts::{split_head, split_quit, split_special};
use rx_sparse::Parts;
use rx_wire::DeserializeError;

/// The label of sparse images.
const LABEL: &str = "rust-regex-automata-dfa-sparse";

/// The parts of an image. The bytes of rows and start ids stay where they are.
#[derive(Drop)]
pub struct Image<'a> {
    /// All parts but the bytes.
    pub parts: Parts,
    /// The bytes of the rows.
    pub rows: &'a [u8],
    /// The bytes of the ids of the start rows.
    pub starts: &'a [u8],
}

/// The parts of an image, and the bytes after them.
#[tactic(auto, unfolding(crate::specs::Images::parts_at))]
pub fn split_image(bytes: &[u8]) -> Result<(Image<'_>, &[u8]), DeserializeError>
    ensures read { Gives (λ x. (seen_image x.0, x.1.now)) result (parts_at bytes.now) }
    ensures image { IfOk result (λ x. IsReadImage x.0) }
{
    let ((flags, order), rest) = split_head(bytes, LABEL)?;
    let (bytes, rest) = split_row_bytes(order, rest)?;
    let (table, rest) = split_start_table(order, rest)?;
    let (special, rest) = split_special(order, bytes.rows.len(), rest)?;
    let (quitset, rest) = split_quit(order, rest)?;
    let parts = Parts {
        order,
        flags,
        classes: bytes.classes,
        pattern_len: bytes.pattern_len,
        state_len: bytes.state_len,
        start_kind: table.start_kind,
        contexts: table.contexts,
        start_pattern_len: table.pattern_starts,
        universal_unanchored: table.universal_unanchored,
        universal_anchored: table.universal_anchored,
        special,
        quitset,
    };
    let image = Image {
        parts,
        rows: bytes.rows,
        starts: table.starts,
    };
    Ok((image, rest))
}

/// The bounds of the numbers in rows.
pub fn bounds_of(image: &Image<'_>) -> Bounds
    ensures { result ≡ bounds_of (seen_image image.now) }
{
    Bounds {
        order: image.parts.order,
        special: image.parts.special,
        last_class: image.parts.classes.get(255),
        pattern_len: image.parts.pattern_len,
        len: image.rows.len(),
    }
}
