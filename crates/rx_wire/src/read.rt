//! Plain bytes, and numbers of little-endian images.

ghost use Rattle.std.specs.Prelude.{◌≡◌, ◌*◌, ◌<◌, IfOk, length, drop};
ghost use Rattle.std.specs.Int.{w16, w32, w128};
ghost use Rattle.rx_wire.specs.Kinds.{GivesExactly, Kind};
ghost use Rattle.rx_wire.specs.Fields.{bytes_at, id_at, number_at};
ghost use Rattle.rx_wire.specs.declared.order.Order.TheVariants.{Little};

use crate::{DeserializeError, Order};
use rx_base::{PatternID, StateID};

/// The first `len` bytes, and the bytes after them.
#[tactic(auto, unfolding(crate::specs::Fields::bytes_at))]
pub fn split_bytes<'a>(
    count: usize,
    bytes: &'a [u8],
    what: &'static str,
) -> Result<(&'a [u8], &'a [u8]), DeserializeError>
    ensures read { GivesExactly (λ x. (x.0.now, x.1.now)) result (bytes_at count bytes.now) }
    ensures length { IfOk result (λ x. length x.0.now ≡ count) }
{
    if bytes.len() < count {
        return Err(DeserializeError::buffer_too_small(what));
    }
    Ok(bytes.split_at(count))
}

/// The bytes of `count` items of a size, and the bytes after them. The count may be any number: it is multiplied only
/// after the bytes are known to be there.
#[tactic(auto, unfolding(crate::specs::Fields::bytes_at))]
pub fn split_items<'a>(
    count: usize,
    size: usize,
    bytes: &'a [u8],
    what: &'static str,
) -> Result<(&'a [u8], &'a [u8]), DeserializeError>
    requires { 0 < size }
    ensures read { GivesExactly (λ x. (x.0.now, x.1.now)) result (bytes_at (size * count) bytes.now) }
    ensures length { IfOk result (λ x. length x.0.now ≡ size * count) }
{
    if bytes.len() / size < count {
        return Err(DeserializeError::buffer_too_small(what));
    }
    Ok(bytes.split_at(size * count))
}

/// A little-endian number of two bytes, and its size.
pub fn try_read_u16(slice: &[u8], what: &'static str) -> Result<(u16, usize), DeserializeError>
    ensures read { GivesExactly (λ x. (x.0, drop 2 slice.now)) result (number_at Little w16 slice.now) }
    ensures size { IfOk result (λ x. x.1 ≡ 2) }
{
    Order::Little.try_read_u16(slice, what)
}

/// A little-endian number of four bytes, and its size.
pub fn try_read_u32(slice: &[u8], what: &'static str) -> Result<(u32, usize), DeserializeError>
    ensures read { GivesExactly (λ x. (x.0, drop 4 slice.now)) result (number_at Little w32 slice.now) }
    ensures size { IfOk result (λ x. x.1 ≡ 4) }
{
    Order::Little.try_read_u32(slice, what)
}

/// A little-endian number of 16 bytes, and its size.
pub fn try_read_u128(slice: &[u8], what: &'static str) -> Result<(u128, usize), DeserializeError>
    ensures read { GivesExactly (λ x. (x.0, drop 16 slice.now)) result (number_at Little w128 slice.now) }
    ensures size { IfOk result (λ x. x.1 ≡ 16) }
{
    Order::Little.try_read_u128(slice, what)
}

/// The little-endian id of a state, and its size.
pub fn try_read_state_id(
    slice: &[u8],
    what: &'static str,
) -> Result<(StateID, usize), DeserializeError>
    ensures read { GivesExactly (λ x. (x.0, drop 4 slice.now)) result (id_at Kind.StateID Little slice.now) }
    ensures size { IfOk result (λ x. x.1 ≡ 4) }
{
    Order::Little.try_read_state_id(slice, what)
}

/// The little-endian id of a pattern, and its size.
pub fn try_read_pattern_id(
    slice: &[u8],
    what: &'static str,
) -> Result<(PatternID, usize), DeserializeError>
    ensures read { GivesExactly (λ x. (x.0, drop 4 slice.now)) result (id_at Kind.PatternID Little slice.now) }
    ensures size { IfOk result (λ x. x.1 ≡ 4) }
{
    Order::Little.try_read_pattern_id(slice, what)
}
