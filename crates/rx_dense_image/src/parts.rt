//! Reading and writing of special ids and needles alone.

ghost use Rattle.std.specs.Prelude.{◌≡◌, ℕ, IsOk, List, MatchResult, length, true, false};
ghost use Rattle.rx_wire.specs.Kinds.{GivesExactly, Kind, Writes};
ghost use Rattle.rx_dense.specs.declared.special.Special.{Special};
ghost use Rattle.rx_wire.specs.declared.order.Order.{Order};
ghost use Rattle.rx_image_parts.specs.SpecialIds.{are_special};
ghost use Rattle.rx_dense_image.specs.Marks.{accel_of, accels_text};

use crate::marks::needles_of;
use crate::put::{NeedleLists, put_accels};
use rx_dense::{Accel, Accels, Special};
use rx_image_parts::are_special;
use rx_wire::{DeserializeError, Endian, SerializeError};

/// Tests special ids: `special.validate()`.
pub trait SpecialImage {
    /// The special ids.
    ghost special: { Self → Special };

    /// Tests whether special ids fit each other:
    ///
    /// - Both ends of a range are 0, or neither is and the first is at most the last.
    /// - A range that isn't empty begins after the quit row. The accelerated rows begin no sooner than the match rows,
    ///   and the start rows no sooner than either.
    /// - `max` is at least the quit row and the last row of each range.
    ///
    /// # Errors
    ///
    /// `Generic` if one of these fails.
    fn validate(&self) -> Result<(), DeserializeError>
        ensures { MatchResult result (λ _. are_special (special self.now) ≡ true)
            (λ kind. (kind ≡ Kind.Generic) × (are_special (special self.now) ≡ false)) };
}

impl SpecialImage for Special {
    ghost special = { λ s. s };

    fn validate(&self) -> Result<(), DeserializeError> {
        if are_special(self) {
            Ok(())
        } else {
            Err(DeserializeError::generic("special ids aren't in order"))
        }
    }
}

/// Reads the needles of one row: `Accel::from_slice(slice)`.
pub trait AccelImage {
    /// Reads an accelerator: the number of needles, at most three, and three bytes that begin with the needles.
    ///
    /// # Errors
    ///
    /// `BufferTooSmall` if the slice has fewer than four bytes, `Generic` if the number is above three.
    fn from_slice(slice: &[u8]) -> Result<Accel, DeserializeError>
        ensures { GivesExactly (λ accel. accel) result (accel_of slice.now) };
}

impl AccelImage for Accel {
    fn from_slice(slice: &[u8]) -> Result<Accel, DeserializeError> {
        if slice.len() < 4 {
            return Err(DeserializeError::buffer_too_small("accelerator"));
        }
        if slice[0] > 3 {
            return Err(DeserializeError::generic("an accelerator of more than three needles"));
        }
        Ok(Accel::from_needles(needles_of(slice)))
    }
}

/// The needles of several rows as part of an image.
pub trait AccelsImage {
    /// The needles of each row.
    ghost accels: { Self → List (List ℕ) };

    /// Their length in an image, in bytes: 4, and 8 for each row.
    fn write_to_len(&self) -> usize
        ensures { (order : Order) → result ≡ length (accels_text order (accels self.now)) };

    /// Writes them at the front of `dst` and returns their length. The bytes after them are unchanged. If `dst` is
    /// shorter, returns an error and writes nothing.
    fn write_to<E: Endian>(&self, dst: &mut [u8]) -> Result<usize, SerializeError>
        ensures { Writes (accels_text E.order (accels self.now)) dst.old dst.new result };

    /// Always returns `Ok`, since each accelerator has at most three needles. Only the reader of a whole image tests
    /// whether a row has its needles ([`DenseRead::from_bytes`](crate::DenseRead::from_bytes)).
    fn validate(&self) -> Result<(), DeserializeError>
        ensures { IsOk result };
}

impl AccelsImage for Accels {
    ghost accels = { λ accels. accels };

    fn write_to_len(&self) -> usize {
        4 + 8 * self.len()
    }

    fn write_to<E: Endian>(&self, dst: &mut [u8]) -> Result<usize, SerializeError> {
        if dst.len() < self.write_to_len() {
            return Err(SerializeError {
                what: "accelerators",
            });
        }
        Ok(put_accels::<E, Accels>(self, dst, 0))
    }

    fn validate(&self) -> Result<(), DeserializeError> {
        Ok(())
    }
}
