//! Writes fields one after another.

ghost use Rattle.std.specs.Prelude.{◌≡◌, ℕ, ◌+◌, ◌≤◌, ◌++◌, List, length};
ghost use Rattle.std.specs.Int.{w32, w128};
ghost use Rattle.rx_wire.specs.Fields.{Stands, field};

use crate::Endian;

/// Writes a number of four bytes at the index `at` and returns the index after it.
pub fn put_u32<E: Endian>(n: u32, dst: &mut [u8], at: usize) -> usize
    requires { at + 4 ≤ length dst.old }
    ensures len { length dst.new ≡ length dst.old }
    ensures place { result ≡ at + 4 }
    ensures stands { (text old : List ℕ)
        → Stands text old dst.old at → Stands (text ++ field E.order w32 n) old dst.new (at + 4) }
{
    E::write_u32(n, &mut dst[at..]);
    at + 4
}

/// Writes a number of 16 bytes at the index `at` and returns the index after it.
pub fn put_u128<E: Endian>(n: u128, dst: &mut [u8], at: usize) -> usize
    requires { at + 16 ≤ length dst.old }
    ensures len { length dst.new ≡ length dst.old }
    ensures place { result ≡ at + 16 }
    ensures stands { (text old : List ℕ)
        → Stands text old dst.old at → Stands (text ++ field E.order w128 n) old dst.new (at + 16) }
{
    E::write_u128(n, &mut dst[at..]);
    at + 16
}

/// Writes bytes at the index `at` and returns the index after them.
pub fn put_bytes(bytes: &[u8], dst: &mut [u8], at: usize) -> usize
    requires { at + length bytes.now ≤ length dst.old }
    ensures len { length dst.new ≡ length dst.old }
    ensures place { result ≡ at + length bytes.now }
    ensures stands { (text old : List ℕ)
        → Stands text old dst.old at → Stands (text ++ bytes.now) old dst.new (at + length bytes.now) }
{
    let end = at + bytes.len();
    dst[at..end].copy_from_slice(bytes);
    end
}
