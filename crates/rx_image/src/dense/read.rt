//! Reads dense tables.

ghost use Rattle.std.specs.Prelude.{◌≡◌, IfOk};
ghost use Rattle.rx_wire.specs.Kinds.{Gives};
ghost use Rattle.rx_dense.specs.Facts.{IsSoundLayout};
ghost use Rattle.rx_dense_image.specs.Images.{IsWhole, reads};

use rx_dense::{DFA, OwnedDFA};
use rx_dense_image::{is_closed, split_parts};
use rx_wire::DeserializeError;
use std::alloc::Global;

/// Reads dense tables: `DFA::<Vec<u32>>::from_bytes(alloc, bytes)`.
pub trait DenseRead {
    /// Reads the table that `slice` begins with and returns it with the length of its image. The image may be in either
    /// byte order. At most seven NULs before the label are passed over; they count for the length.
    ///
    /// The table is sound, and its image is read again as the same table (`IsWhole`).
    ///
    /// # Errors
    ///
    /// The kind of the first test that fails, or `Memory` if memory runs out.
    fn from_bytes(alloc: Global, slice: &[u8]) -> Result<(OwnedDFA, usize), DeserializeError>
        ensures read { Gives (λ x. (x.0, x.1)) result (reads slice.now) }
        ensures whole { IfOk result (λ x. IsWhole x.0) }
        ensures sound { IfOk result (λ x. IsSoundLayout x.0) };
}

/// The table that some bytes begin with, and the length of its image.
#[tactic(auto, unfolding(rx_dense_image::specs::Images::reads))]
fn read_table(alloc: Global, bytes: &[u8]) -> Result<(OwnedDFA, usize), DeserializeError>
    ensures read { Gives (λ x. (x.0, x.1)) result (reads bytes.now) }
    ensures whole { IfOk result (λ x. IsWhole x.0) }
{
    let ((parts, sound), rest) = split_parts(alloc, bytes)?;
    if !is_closed(alloc, &parts, sound)? {
        return Err(DeserializeError::generic("the parts don't fit each other"));
    }
    let size = bytes.len().saturating_sub(rest.len());
    let table = DFA::from_parts(parts).with_marks()?;
    Ok((table, size))
}

impl DenseRead for DFA<Vec<u32>> {
    fn from_bytes(alloc: Global, slice: &[u8]) -> Result<(OwnedDFA, usize), DeserializeError> {
        read_table(alloc, slice)
    }
}
