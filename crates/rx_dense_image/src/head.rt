//! The head of a dense image.

ghost use Rattle.std.specs.Prelude.{◌≡◌, ◌≤◌, ◌==◌, length, take, drop};
ghost use Rattle.std.specs.List.{prefix_len};
ghost use Rattle.rx_wire.specs.Kinds.{Gives};
ghost use Rattle.rx_dense_image.specs.Heads.{dense_head_at, skipped_nuls};

use rx_dense::Flags;
use rx_image_parts::split_head;
use rx_wire::{DeserializeError, Order};

/// The label of dense images.
pub(crate) const LABEL: &str = "rust-regex-automata-dfa-dense";

/// The most NULs that may stand before the label.
const MAX_NULS: usize = 7;

/// The bytes from the label on. At most seven NULs before it are passed over.
fn without_nuls(bytes: &[u8]) -> &[u8]
    ensures { result.now ≡ drop (skipped_nuls bytes.now) bytes.now }
{
    let skipped = nul_len(first(MAX_NULS, bytes));
    &bytes[skipped..]
}

/// The number of NULs at the front.
fn nul_len(bytes: &[u8]) -> usize
    ensures value { result ≡ prefix_len (λ byte. byte == 0) bytes.now }
    ensures bound { result ≤ length bytes.now }
{
    for i in 0..bytes.len() {
        if bytes[i] != 0 {
            return i;
        }
    }
    bytes.len()
}

/// The first bytes, at most `most`.
fn first(most: usize, bytes: &[u8]) -> &[u8]
    ensures value { result.now ≡ take most bytes.now }
    ensures len { length result.now ≤ length bytes.now }
{
    if bytes.len() < most {
        return bytes;
    }
    &bytes[..most]
}

/// The flags of a dense image, and the byte order of what follows its head.
#[tactic(auto, unfolding(crate::specs::Heads::dense_head_at))]
pub fn split_dense_head(bytes: &[u8]) -> Result<((Flags, Order), &[u8]), DeserializeError>
    ensures { Gives (λ x. (x.0, x.1.now)) result (dense_head_at bytes.now) }
{
    split_head(without_nuls(bytes), LABEL)
}
