//! The head of an image.

ghost use Rattle.std.specs.Prelude.{◌≡◌, ◌==◌};
ghost use Rattle.rx_wire.specs.Kinds.{Gives};
ghost use Rattle.rx_image_parts.specs.Heads.{flags_of, head_at};

use rx_dense::Flags;
use rx_wire::{DeserializeError, Order, split_label, split_order};

/// The version that is read and written.
pub(crate) const VERSION: u32 = 2;

/// The flags of a word. Bits without a meaning are ignored.
fn flags_of(word: u32) -> Flags
    ensures { result ≡ flags_of word }
{
    Flags {
        has_empty: word & 1 == 1,
        is_utf8: word >> 1 & 1 == 1,
        is_always_start_anchored: word >> 2 & 1 == 1,
    }
}

/// The flags, and the byte order of what follows the head.
#[tactic(auto, unfolding(crate::specs::Heads::head_at))]
pub fn split_head<'a>(
    bytes: &'a [u8],
    label: &'static str,
) -> Result<((Flags, Order), &'a [u8]), DeserializeError>
    ensures { Gives (λ x. (x.0, x.1.now)) result (head_at label.now bytes.now) }
{
    let (_, rest) = split_label(bytes, label)?;
    let (order, rest) = split_order(rest)?;
    let rest = order.split_version(rest, VERSION)?;
    let (_, rest) = order.split_u32(rest, "unused space")?;
    let (word, rest) = order.split_u32(rest, "flags")?;
    Ok(((flags_of(word), order), rest))
}
