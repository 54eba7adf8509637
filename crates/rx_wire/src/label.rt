//! Labels, with which images begin.

ghost use Rattle.std.specs.Prelude.{◌≡◌, IfOk, ◌≤◌, ◌++◌, length, take, drop};
ghost use Rattle.std.specs.List.{prefix_len};
ghost use Rattle.std.specs.Str.{bytes_eq};
ghost use Rattle.rx_wire.specs.Kinds.{GivesExactly, Writes};
ghost use Rattle.rx_wire.specs.Heads.{IsLabel, is_text, label_at, label_text, padding};

use crate::{DeserializeError, DeserializeErrorKind, SerializeError};

/// The greatest length of a label with its NUL.
const MAX_LEN: usize = 256;

/// The number of bytes from `n` to the next multiple of 4.
pub fn padding_len(n: usize) -> usize
    ensures value { result ≡ padding n }
    ensures small { result ≤ 3 }
{
    (4 - n % 4) % 4
}

/// The number of bytes before the first NUL.
fn text_len(bytes: &[u8]) -> usize
    ensures value { result ≡ prefix_len is_text bytes.now }
    ensures bound { result ≤ length bytes.now }
{
    for i in 0..bytes.len() {
        if bytes[i] == 0 {
            return i;
        }
    }
    bytes.len()
}

/// The first bytes, at most `most`.
fn first(most: usize, bytes: &[u8]) -> &[u8]
    ensures value { result.now ≡ take most bytes.now }
    ensures len { length result.now ≤ most }
{
    if bytes.len() < most {
        return bytes;
    }
    &bytes[..most]
}

/// Whether a text is the label.
fn is_label(text: &[u8], label: &str) -> bool
    ensures { result ≡ bytes_eq text.now label.now }
{
    text == label.as_bytes()
}

/// Reads the label that `slice` begins with, which must be the expected one. Returns its size with the NUL and the
/// padding.
#[tactic(auto, unfolding(crate::specs::Heads::label_at))]
pub fn read_label(slice: &[u8], expected: &'static str) -> Result<usize, DeserializeError>
    ensures read { GivesExactly (λ size. (size, drop size slice.now)) result (label_at expected.now slice.now) }
    ensures within { IfOk result (λ size. size ≤ length slice.now) }
{
    let front = first(MAX_LEN, slice);
    let text = text_len(front);
    if text == front.len() {
        return Err(DeserializeError::generic(
            "could not find NUL terminated label at start of serialized object",
        ));
    }
    let size = text + 1 + padding_len(text + 1);
    if slice.len() < size {
        return Err(DeserializeError::generic(
            "could not find properly sized label at start of serialized object",
        ));
    }
    if !is_label(&slice[..text], expected) {
        return Err(DeserializeError::new(DeserializeErrorKind::LabelMismatch { expected }));
    }
    Ok(size)
}

/// Splits off the label, which must be the expected one. Returns its size with the NUL and the padding, and the bytes
/// after it.
#[tactic(auto, unfolding(crate::specs::Heads::label_at))]
pub fn split_label<'a>(
    bytes: &'a [u8],
    expected: &'static str,
) -> Result<(usize, &'a [u8]), DeserializeError>
    ensures { GivesExactly (λ x. (x.0, x.1.now)) result (label_at expected.now bytes.now) }
{
    let size = read_label(bytes, expected)?;
    Ok((size, &bytes[size..]))
}

/// The size of a label in an image: its own bytes, a NUL, and NULs up to a multiple of 4. Requires at most 255 bytes,
/// none of them a NUL.
pub fn write_label_len(label: &str) -> usize
    requires { IsLabel label.now }
    ensures value { result ≡ length (label_text label.now) }
    ensures bound { result ≤ 256 }
{
    label.len() + 1 + padding_len(label.len() + 1)
}

/// Writes a label at the front of `dst` and returns its size. Requires at most 255 bytes, none of them a NUL. If `dst`
/// is shorter, returns an error and writes nothing.
pub fn write_label(label: &str, dst: &mut [u8]) -> Result<usize, SerializeError>
    requires { IsLabel label.now }
    ensures { Writes (label_text label.now) dst.old dst.new result }
{
    let size = write_label_len(label);
    if dst.len() < size {
        return Err(SerializeError { what: "label" });
    }
    dst[..label.len()].copy_from_slice(label.as_bytes());
    dst[label.len()..size].fill(0);
    Ok(size)
}
