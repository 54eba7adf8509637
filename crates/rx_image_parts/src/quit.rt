//! The quit bytes of an image.

ghost use Rattle.std.specs.Prelude.{◌^◌, ◌<◌, IfOk};
ghost use Rattle.rx_wire.specs.Kinds.{Gives};
ghost use Rattle.rx_image_parts.specs.QuitBytes.{quit_at};

use rx_base::ByteSet;
use rx_wire::{DeserializeError, Order};

/// The quit bytes, and the bytes after them.
#[tactic(auto, unfolding(crate::specs::QuitBytes::quit_at))]
pub fn split_quit(order: Order, bytes: &[u8]) -> Result<(ByteSet, &[u8]), DeserializeError>
    ensures read { Gives (λ x. (x.0, x.1.now)) result (quit_at order bytes.now) }
    ensures bound { IfOk result (λ x. x.0 < 2 ^ 256) }
{
    let (low, rest) = order.split_u128(bytes, "quit set")?;
    let (high, rest) = order.split_u128(rest, "quit set")?;
    Ok((ByteSet::from_halves(low, high), rest))
}
