//! The word that marks an image's byte order, and its version.

ghost use Rattle.std.specs.Prelude.{◌≡◌, IfOk, drop};
ghost use Rattle.std.specs.Int.{w32};
ghost use Rattle.rx_wire.specs.Kinds.{GivesExactly, Writes};
ghost use Rattle.rx_wire.specs.Fields.{field};
ghost use Rattle.rx_wire.specs.Heads.{endianness_check_at, endianness_word, order_at, version_at};
ghost use Rattle.rx_wire.specs.declared.order.Order.TheVariants.{Little};

use crate::{DeserializeError, DeserializeErrorKind, Endian, Order, SerializeError};

/// The word that marks the byte order, and the same word with its bytes reversed.
const WORD: u32 = 0xFEFF;

const TURNED_WORD: u32 = 0xFFFE0000;

/// The error for a word that marks no byte order.
fn mismatch(found: u32) -> DeserializeErrorKind
    ensures { result ≡ DeserializeErrorKind.EndianMismatch endianness_word found }
{
    DeserializeErrorKind::EndianMismatch {
        expected: WORD,
        found,
    }
}

/// Writes the word that marks the byte order at the front of `dst` and returns its size, 4. If `dst` is shorter,
/// returns an error and writes nothing.
pub fn write_endianness_check<E: Endian>(dst: &mut [u8]) -> Result<usize, SerializeError>
    ensures { Writes (field E.order w32 endianness_word) dst.old dst.new result }
{
    if dst.len() < 4 {
        return Err(SerializeError {
            what: "endianness check",
        });
    }
    E::write_u32(WORD, dst);
    Ok(4)
}

/// Reads the word that marks the byte order, which must be that of a little-endian image. Returns its size, 4.
#[tactic(auto, unfolding(crate::specs::Heads::endianness_check_at, crate::specs::Fields::number_at))]
pub fn read_endianness_check(slice: &[u8]) -> Result<usize, DeserializeError>
    ensures read { GivesExactly (λ _. (endianness_word, drop 4 slice.now)) result (endianness_check_at slice.now) }
    ensures size { IfOk result (λ size. size ≡ 4) }
{
    let (found, size) = Order::Little.try_read_u32(slice, "endianness check")?;
    if found != WORD {
        return Err(DeserializeError::new(mismatch(found)));
    }
    Ok(size)
}

/// Splits off the word that marks the byte order. Returns the byte order and the bytes after the word.
#[tactic(auto, unfolding(crate::specs::Heads::order_at))]
pub fn split_order(bytes: &[u8]) -> Result<(Order, &[u8]), DeserializeError>
    ensures { GivesExactly (λ x. (x.0, x.1.now)) result (order_at bytes.now) }
{
    let (found, rest) = Order::Little.split_u32(bytes, "endianness check")?;
    match found {
        WORD => Ok((Order::Little, rest)),
        TURNED_WORD => Ok((Order::Big, rest)),
        _ => Err(DeserializeError::new(mismatch(found))),
    }
}

/// Reads the word that marks the byte order. Returns the byte order and the word's size, 4.
#[tactic(auto, unfolding(crate::specs::Heads::order_at, crate::specs::Fields::number_at))]
pub fn read_order(slice: &[u8]) -> Result<(Order, usize), DeserializeError>
    ensures read { GivesExactly (λ x. (x.0, drop 4 slice.now)) result (order_at slice.now) }
    ensures size { IfOk result (λ x. x.1 ≡ 4) }
{
    let (order, _) = split_order(slice)?;
    Ok((order, 4))
}

/// Writes a version at the front of `dst` and returns its size, 4. If `dst` is shorter, returns an error and writes
/// nothing.
pub fn write_version<E: Endian>(version: u32, dst: &mut [u8]) -> Result<usize, SerializeError>
    ensures { Writes (field E.order w32 version) dst.old dst.new result }
{
    if dst.len() < 4 {
        return Err(SerializeError {
            what: "version number",
        });
    }
    E::write_u32(version, dst);
    Ok(4)
}

/// Reads a little-endian version, which must be the expected one. Returns its size, 4.
pub fn read_version(slice: &[u8], expected: u32) -> Result<usize, DeserializeError>
    ensures read { GivesExactly (λ _. (expected, drop 4 slice.now)) result (version_at expected Little slice.now) }
    ensures size { IfOk result (λ size. size ≡ 4) }
{
    Order::Little.read_version(slice, expected)
}
