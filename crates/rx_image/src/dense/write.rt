//! Writes dense tables.

ghost use Rattle.std.specs.Prelude.{◌≡◌, IfOk, length};
ghost use Rattle.rx_wire.specs.declared.order.Order.{Order};
ghost use Rattle.rx_wire.specs.declared.order.Order.TheVariants.{Little, Big};
ghost use Rattle.rx_wire.specs.Kinds.{Writes};
ghost use Rattle.rx_dense.specs.Layouts.{Layout};
ghost use Rattle.rx_dense_image.specs.Images.{image_len, text};

use rx_dense::{DFA, WordStore};
use rx_dense_image::{image_len, put_image};
use rx_wire::{BE, Endian, LE, SerializeError};
use std::alloc::{AllocError, Global};

/// Writes an image at the front of `dst`, if it fits.
fn write_image<E: Endian, T: WordStore>(
    dfa: &DFA<T>,
    dst: &mut [u8],
) -> Result<usize, SerializeError>
    ensures { Writes (text E.order dfa.now) dst.old dst.new result }
{
    if dst.len() < image_len(dfa) {
        return Err(SerializeError { what: "dense DFA" });
    }
    Ok(put_image::<E, T>(dfa, dst))
}

/// Fills a destination with an image of the same length.
fn fill_image<E: Endian, T: WordStore>(dfa: &DFA<T>, dst: &mut [u8])
    requires { length dst.old ≡ image_len dfa.now }
    ensures { dst.new ≡ text E.order dfa.now }
{
    put_image::<E, T>(dfa, dst);
}

/// The bytes of an image.
fn image_bytes<E: Endian, T: WordStore>(alloc: Global, dfa: &DFA<T>) -> Result<Vec<u8>, AllocError>
    ensures { IfOk result (λ bytes. bytes.items ≡ text E.order dfa.now) }
{
    let mut bytes = vec![in alloc; 0; image_len(dfa)]?;
    fill_image::<E, T>(dfa, bytes.as_mut_slice());
    Ok(bytes)
}

/// Writes dense tables. The native byte order is little endian.
pub trait DenseWrite {
    /// The layout of the table.
    ghost layout: { Self → Layout };

    /// The length of the image in bytes, the same in both byte orders.
    fn write_to_len(&self) -> usize
        ensures { (order : Order) → result ≡ length (text order (layout self.now)) };

    /// Writes the little-endian image at the front of `dst` and returns its length. The bytes after it are unchanged.
    /// If `dst` is shorter, returns an error and writes nothing.
    fn write_to_little_endian(&self, dst: &mut [u8]) -> Result<usize, SerializeError>
        ensures { Writes (text Little (layout self.now)) dst.old dst.new result };

    /// Writes the big-endian image at the front of `dst` and returns its length. The bytes after it are unchanged. If
    /// `dst` is shorter, returns an error and writes nothing.
    fn write_to_big_endian(&self, dst: &mut [u8]) -> Result<usize, SerializeError>
        ensures { Writes (text Big (layout self.now)) dst.old dst.new result };

    /// Writes the image in native order at the front of `dst` and returns its length. The bytes after it are unchanged.
    /// If `dst` is shorter, returns an error and writes nothing.
    fn write_to_native_endian(&self, dst: &mut [u8]) -> Result<usize, SerializeError>
        ensures { Writes (text Little (layout self.now)) dst.old dst.new result };

    /// The little-endian image, and the number of padding bytes before it, which is 0. The only error is that memory
    /// runs out.
    fn to_bytes_little_endian(&self, alloc: Global) -> Result<(Vec<u8>, usize), AllocError>
        ensures { IfOk result (λ x. (x.0.items ≡ text Little (layout self.now)) × (x.1 ≡ 0)) };

    /// The big-endian image, and the number of padding bytes before it, which is 0. The only error is that memory runs
    /// out.
    fn to_bytes_big_endian(&self, alloc: Global) -> Result<(Vec<u8>, usize), AllocError>
        ensures { IfOk result (λ x. (x.0.items ≡ text Big (layout self.now)) × (x.1 ≡ 0)) };

    /// The image in native order, and the number of padding bytes before it, which is 0. The only error is that memory
    /// runs out.
    fn to_bytes_native_endian(&self, alloc: Global) -> Result<(Vec<u8>, usize), AllocError>
        ensures { IfOk result (λ x. (x.0.items ≡ text Little (layout self.now)) × (x.1 ≡ 0)) };
}

impl<T: WordStore> DenseWrite for DFA<T> {
    ghost layout = { λ dfa. dfa };

    fn write_to_len(&self) -> usize {
        image_len(self)
    }

    fn write_to_little_endian(&self, dst: &mut [u8]) -> Result<usize, SerializeError> {
        write_image::<LE, T>(self, dst)
    }

    fn write_to_big_endian(&self, dst: &mut [u8]) -> Result<usize, SerializeError> {
        write_image::<BE, T>(self, dst)
    }

    fn write_to_native_endian(&self, dst: &mut [u8]) -> Result<usize, SerializeError> {
        self.write_to_little_endian(dst)
    }

    fn to_bytes_little_endian(&self, alloc: Global) -> Result<(Vec<u8>, usize), AllocError> {
        Ok((image_bytes::<LE, T>(alloc, self)?, 0))
    }

    fn to_bytes_big_endian(&self, alloc: Global) -> Result<(Vec<u8>, usize), AllocError> {
        Ok((image_bytes::<BE, T>(alloc, self)?, 0))
    }

    fn to_bytes_native_endian(&self, alloc: Global) -> Result<(Vec<u8>, usize), AllocError> {
        self.to_bytes_little_endian(alloc)
    }
}
