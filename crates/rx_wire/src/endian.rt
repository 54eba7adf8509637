//! Writing numbers in a byte order that is a type.

ghost use Rattle.std.specs.Prelude.{◌≡◌, ◌≤◌, ◌++◌, length, drop};
ghost use Rattle.std.specs.Int.{w16, w32, w128};
ghost use Rattle.rx_wire.specs.Fields.{field};
ghost use Rattle.rx_wire.specs.declared.order.Order.{Order};
ghost use Rattle.rx_wire.specs.declared.order.Order.TheVariants.{Little, Big};

/// A byte order for writing: [`LE`] or [`BE`].
pub trait Endian {
    /// The byte order.
    ghost order: { Order };

    /// Writes a number of two bytes at the front of `dst`. The bytes after it are unchanged.
    fn write_u16(n: u16, dst: &mut [u8])
        requires { 2 ≤ length dst.old }
        ensures { dst.new ≡ field order w16 n ++ drop 2 dst.old };

    /// Writes a number of four bytes at the front of `dst`. The bytes after it are unchanged.
    fn write_u32(n: u32, dst: &mut [u8])
        requires { 4 ≤ length dst.old }
        ensures { dst.new ≡ field order w32 n ++ drop 4 dst.old };

    /// Writes a number of 16 bytes at the front of `dst`. The bytes after it are unchanged.
    fn write_u128(n: u128, dst: &mut [u8])
        requires { 16 ≤ length dst.old }
        ensures { dst.new ≡ field order w128 n ++ drop 16 dst.old };
}

/// Little endian: the lowest byte of a number comes first.
#[derive(Clone, Copy, Debug)]
pub struct LE;

/// Big endian: the highest byte of a number comes first.
#[derive(Clone, Copy, Debug)]
pub struct BE;

impl Endian for LE {
    ghost order = { Little };

    fn write_u16(n: u16, dst: &mut [u8]) {
        dst[..2].copy_from_slice(&n.to_le_bytes());
    }

    fn write_u32(n: u32, dst: &mut [u8]) {
        dst[..4].copy_from_slice(&n.to_le_bytes());
    }

    fn write_u128(n: u128, dst: &mut [u8]) {
        dst[..16].copy_from_slice(&n.to_le_bytes());
    }
}

impl Endian for BE {
    ghost order = { Big };

    fn write_u16(n: u16, dst: &mut [u8]) {
        dst[..2].copy_from_slice(&n.to_be_bytes());
    }

    fn write_u32(n: u32, dst: &mut [u8]) {
        dst[..4].copy_from_slice(&n.to_be_bytes());
    }

    fn write_u128(n: u128, dst: &mut [u8]) {
        dst[..16].copy_from_slice(&n.to_be_bytes());
    }
}
