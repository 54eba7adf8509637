//! Writes sparse tables.

ghost use Rattle.std.specs.Prelude.{◌≡◌, List, IfOk, length};
ghost use Rattle.rx_wire.specs.declared.order.Order.{Order};
ghost use Rattle.rx_wire.specs.declared.order.Order.TheVariants.{Little, Big};
ghost use Rattle.rx_wire.specs.Kinds.{Writes};
ghost use Rattle.rx_sparse.specs.Layouts.{IsShaped, Layout};
ghost use Rattle.rx_sparse_image.specs.Images.{image_len, text};

use rx_sparse::{ByteStore, DFA};
use rx_sparse_image::{image_len, put_image};
use rx_wire::{BE, Endian, LE, Order, SerializeError};
use std::alloc::{AllocError, Global};

/// Writes an image at the front of `dst`, if it fits.
fn write_image<E: Endian, T: ByteStore>(
    order: Order,
    dfa: &DFA<T>,
    dst: &mut [u8],
) -> Result<usize, SerializeError>
    requires { order ≡ E.order }
    ensures { Writes (text E.order dfa.now.layout) dst.old dst.new result }
{
    if dst.len() < image_len(dfa) {
        return Err(SerializeError { what: "sparse DFA" });
    }
    Ok(put_image::<E, T>(order, dfa, dst))
}

/// Fills a destination with an image of the same length.
fn fill_image<E: Endian, T: ByteStore>(order: Order, dfa: &DFA<T>, dst: &mut [u8])
    requires order { order ≡ E.order }
    requires shaped { IsShaped dfa.now.layout }
    requires len { length dst.old ≡ image_len dfa.now.layout }
    ensures { dst.new ≡ text E.order dfa.now.layout }
{
    put_image::<E, T>(order, dfa, dst);
}

/// The bytes of an image.
fn image_bytes<E: Endian, T: ByteStore>(
    alloc: Global,
    order: Order,
    dfa: &DFA<T>,
) -> Result<Vec<u8>, AllocError>
    requires { order ≡ E.order }
    ensures { IfOk result (λ bytes. bytes.items ≡ text E.order dfa.now.layout) }
{
    let mut bytes = vec![in alloc; 0; image_len(dfa)]?;
    fill_image::<E, T>(order, dfa, bytes.as_mut_slice());
    Ok(bytes)
}

/// Writes sparse tables, whatever their byte order. The native byte order is little endian.
pub trait SparseWrite {
    /// The layout of the table.
    ghost layout: { Self → Layout };

    /// The length of the image in bytes, the same in both byte orders.
    fn write_to_len(&self) -> usize
        ensures { (order : Order) → result ≡ length (text order (layout self.now)) };

    /// Writes the little-endian image at the front of `dst` and returns its length. The bytes after it are unchanged.
    /// If `dst` is shorter, returns an error and writes nothing.
    fn write_to_little_endian(&self, dst: &mut [u8]) -> Result<usize, SerializeError>
        ensures { Writes (text Little (layout self.now)) dst.old dst.new result };

    /// Writes the big-endian image at the front of `dst` and returns its length. The bytes after it are unchanged. If
    /// `dst` is shorter, returns an error and writes nothing.
    fn write_to_big_endian(&self, dst: &mut [u8]) -> Result<usize, SerializeError>
        ensures { Writes (text Big (layout self.now)) dst.old dst.new result };

    /// Writes the image in native order at the front of `dst` and returns its length. The bytes after it are unchanged.
    /// If `dst` is shorter, returns an error and writes nothing.
    fn write_to_native_endian(&self, dst: &mut [u8]) -> Result<usize, SerializeError>
        ensures { Writes (text Little (layout self.now)) dst.old dst.new result };

    /// The little-endian image. The only error is that memory runs out.
    fn to_bytes_little_endian(&self, alloc: Global) -> Result<Vec<u8>, AllocError>
        ensures { IfOk result (λ bytes. bytes.items ≡ text Little (layout self.now)) };

    /// The big-endian image. The only error is that memory runs out.
    fn to_bytes_big_endian(&self, alloc: Global) -> Result<Vec<u8>, AllocError>
        ensures { IfOk result (λ bytes. bytes.items ≡ text Big (layout self.now)) };

    /// The image in native order. The only error is that memory runs out.
    fn to_bytes_native_endian(&self, alloc: Global) -> Result<Vec<u8>, AllocError>
        ensures { IfOk result (λ bytes. bytes.items ≡ text Little (layout self.now)) };
}

impl<T: ByteStore> SparseWrite for DFA<T> {
    ghost layout = { λ s. s.layout };

    fn write_to_len(&self) -> usize {
        image_len(self)
    }

    fn write_to_little_endian(&self, dst: &mut [u8]) -> Result<usize, SerializeError> {
        write_image::<LE, T>(Order::Little, self, dst)
    }

    fn write_to_big_endian(&self, dst: &mut [u8]) -> Result<usize, SerializeError> {
        write_image::<BE, T>(Order::Big, self, dst)
    }

    fn write_to_native_endian(&self, dst: &mut [u8]) -> Result<usize, SerializeError> {
        self.write_to_little_endian(dst)
    }

    fn to_bytes_little_endian(&self, alloc: Global) -> Result<Vec<u8>, AllocError> {
        image_bytes::<LE, T>(alloc, Order::Little, self)
    }

    fn to_bytes_big_endian(&self, alloc: Global) -> Result<Vec<u8>, AllocError> {
        image_bytes::<BE, T>(alloc, Order::Big, self)
    }

    fn to_bytes_native_endian(&self, alloc: Global) -> Result<Vec<u8>, AllocError> {
        self.to_bytes_little_endian(alloc)
    }
}
