//! Reads sparse tables.

ghost use Rattle.std.specs.Prelude.{◌≡◌, IfOk};
ghost use Rattle.rx_wire.specs.Kinds.{Gives};
ghost use Rattle.rx_sparse.specs.Facts.{IsSoundLayout};
ghost use Rattle.rx_sparse_image.specs.Images.{reads};
ghost use Rattle.rx_sparse_image.specs.Tested.{IsWhole};

use rx_sparse::DFA;
use rx_sparse_image::{bounds_of, is_closed, split_image, walk};
use rx_wire::DeserializeError;
use std::alloc::Global;

/// Reads sparse tables in place: `DFA::<&[u8]>::from_bytes(alloc, bytes)`.
pub trait SparseRead<'a> {
    /// Reads the table that `slice` begins with and returns it with the length of its image. The image may be in either
    /// byte order, which the table keeps. The table borrows the image; memory is taken only while the reader tests that
    /// every transition leads to a state.
    ///
    /// # Errors
    ///
    /// The kind of the first test that fails, or `Memory` if memory runs out.
    fn from_bytes(
        alloc: Global,
        slice: &'a [u8],
    ) -> Result<(DFA<&'a [u8]>, usize), DeserializeError>
        ensures read { Gives (λ x. (x.0, x.1)) result (reads slice.now) }
        ensures whole { IfOk result (λ x. IsWhole x.0.layout) }
        ensures sound { IfOk result (λ x. IsSoundLayout x.0.layout) };
}

/// The table that some bytes begin with, and the length of its image.
#[tactic(auto, unfolding(rx_sparse_image::specs::Images::reads))]
fn read_table(alloc: Global, bytes: &[u8]) -> Result<(DFA<&[u8]>, usize), DeserializeError>
    ensures read { Gives (λ x. (x.0, x.1)) result (reads bytes.now) }
    ensures whole { IfOk result (λ x. IsWhole x.0.layout) }
{
    let (image, rest) = split_image(bytes)?;
    let (count, rows) = walk(alloc, &bounds_of(&image), image.rows)?;
    if count != image.parts.state_len {
        return Err(DeserializeError::generic("another number of rows"));
    }
    if !is_closed(&image, &rows) {
        return Err(DeserializeError::generic("the parts don't fit each other"));
    }
    let size = bytes.len().saturating_sub(rest.len());
    Ok((DFA::from_parts(image.parts, image.rows, image.starts), size))
}

impl<'a> SparseRead<'a> for DFA<&'a [u8]> {
    #[tactic(auto, using(rx_sparse_image::proofs::SoundImages::sound_result))]
    fn from_bytes(
        alloc: Global,
        slice: &'a [u8],
    ) -> Result<(DFA<&'a [u8]>, usize), DeserializeError> {
        read_table(alloc, slice)
    }
}
