//! The marks of an image: special ids, needles, and quit bytes.

ghost use Rattle.std.specs.Prelude.{◌≡◌, ◌+◌, ◌*◌, ◌^◌, ◌<◌, ◌≤◌, IfOk, IfErr, length, map};
ghost use Rattle.std.specs.List.{range_with_len};
ghost use Rattle.rx_wire.specs.Kinds.{Gives, Kind};
ghost use Rattle.rx_dense.specs.declared.special.Special.{Special};
ghost use Rattle.rx_dense_image.specs.Marks.{AreReadAccels, accels_at, needles_in, needles_of, AreReadMarks};
ghost use Rattle.rx_dense_image.specs.Marks.{marks_at};

use rx_base::{ByteSet, Needles};
use rx_dense::{Accel, Accels, Special};
use rx_image_parts::{split_quit, split_special};
use rx_wire::{DeserializeError, Order, split_items};
use std::alloc::Global;
use std::marker::Model;

/// The length of an accelerator in bytes.
pub(crate) const ACCEL_LEN: usize = 8;

/// The needles of an accelerator. One that counts more than three is read as one without needles, which no accelerated
/// row may have.
pub(crate) fn needles_of(bytes: &[u8]) -> Needles
    requires { 4 ≤ length bytes.now }
    ensures { result ≡ needles_of bytes.now }
{
    let len = bytes[0] as usize;
    if len <= 3 {
        Needles::new(&bytes[1..1 + len])
    } else {
        Needles::new(&[])
    }
}

/// The needles of an accelerator, by its index.
fn needles_in(bytes: &[u8], i: usize) -> Needles
    requires { 8 * i + 8 ≤ length bytes.now }
    ensures { result ≡ needles_in bytes.now i }
{
    needles_of(&bytes[ACCEL_LEN * i..])
}

/// The needles of `count` accelerators. Their bytes are known to be there, so a false count takes no memory.
fn accels_of(alloc: Global, bytes: &[u8], count: usize) -> Result<Accels, DeserializeError>
    requires bytes { length bytes.now ≡ 8 * count }
    requires few { count < 2 ^ 32 }
    ensures ok { IfOk result (λ accels. accels ≡ map (needles_in bytes.now) (range_with_len 0 count)) }
    ensures read { IfOk result AreReadAccels }
    ensures memory { IfErr result (λ kind. kind ≡ Kind.Memory) }
{
    let mut accels = Accels::with_capacity(alloc, count)?;
    for i in 0..count {
        accels.add(Accel::from_needles(needles_in(bytes, i)))?;
    }
    Ok(accels)
}

/// The needles of the accelerated rows, and the bytes after them.
#[tactic(auto, unfolding(crate::specs::Marks::accels_at))]
fn split_accels<'a>(
    alloc: Global,
    order: Order,
    bytes: &'a [u8],
) -> Result<(Accels, &'a [u8]), DeserializeError>
    ensures read { Gives (λ x. (x.0, x.1.now)) result (accels_at order bytes.now) }
    ensures accels { IfOk result (λ x. AreReadAccels x.0) }
{
    let (count, rest) = order.split_u32(bytes, "number of accelerators")?;
    let (front, rest) = split_items(count as usize, ACCEL_LEN, rest, "accelerators")?;
    let accels = accels_of(alloc, front, count as usize)?;
    Ok((accels, rest))
}

/// The marks of an image.
#[derive(Drop)]
pub(crate) struct Marks {
    /// The special ids.
    pub special: Special,
    /// The needles of the accelerated rows.
    pub accels: Accels,
    /// The quit bytes.
    pub quitset: ByteSet,
}

impl Model for Marks {
    ghost use Rattle.rx_dense_image.specs.Marks.{Marks};

    ghost Value = { Marks };

    ghost view = { λ m. record { special = m.special; accels = m.accels; quit = m.quitset } };
}

/// The marks, and the bytes after them.
#[tactic(auto, unfolding(crate::specs::Marks::marks_at))]
pub(crate) fn split_marks<'a>(
    alloc: Global,
    order: Order,
    word_len: usize,
    bytes: &'a [u8],
) -> Result<(Marks, &'a [u8]), DeserializeError>
    ensures read { Gives (λ x. (x.0, x.1.now)) result (marks_at order word_len bytes.now) }
    ensures marks { IfOk result (λ x. AreReadMarks word_len x.0) }
{
    let (special, rest) = split_special(order, word_len, bytes)?;
    let (accels, rest) = split_accels(alloc, order, rest)?;
    let (quitset, rest) = split_quit(order, rest)?;
    let marks = Marks {
        special,
        accels,
        quitset,
    };
    Ok((marks, rest))
}
