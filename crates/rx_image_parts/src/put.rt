//! Writes parts of an image.
//!
//! Each `put` function writes a part at an index and returns the index after it.

ghost use Rattle.std.specs.Prelude.{◌≡◌, ◌+◌, ◌^◌, ◌<◌, ◌≤◌, ◌++◌, length};
ghost use Rattle.std.specs.Int.{w32, w128};
ghost use Rattle.rx_wire.specs.Fields.{field};
ghost use Rattle.rx_dense.specs.Layouts.{context_number};
ghost use Rattle.rx_image_parts.specs.Heads.{behind_label, flag, flags_word};
ghost use Rattle.rx_image_parts.specs.StartTables.{kind_number, number_or_none};
ghost use Rattle.rx_image_parts.specs.QuitBytes.{quit_text};
ghost use Rattle.rx_image_parts.specs.SpecialIds.{special_text};
ghost use Rattle.rx_image_parts.specs.Written.{IsPut};

use crate::head::VERSION;
use crate::start_table::NONE;
use rx_base::{ByteSet, Start, StartKind, StateID};
use rx_dense::{Flags, Special};
use rx_wire::{Endian, put_bytes, put_u32, put_u128};

/// The word that marks the byte order.
pub const ENDIANNESS: u32 = 0xFEFF;

/// Writes a number of four bytes.
pub fn put_word<E: Endian>(word: u32, dst: &mut [u8], at: usize) -> usize
    requires { at + 4 ≤ length dst.old }
    ensures len { length dst.new ≡ length dst.old }
    ensures place { result ≡ at + 4 }
    ensures put { IsPut (field E.order w32 word) dst.old dst.new at result }
{
    put_u32::<E>(word, dst, at)
}

fn put_wide<E: Endian>(number: u128, dst: &mut [u8], at: usize) -> usize
    requires { at + 16 ≤ length dst.old }
    ensures len { length dst.new ≡ length dst.old }
    ensures place { result ≡ at + 16 }
    ensures put { IsPut (field E.order w128 number) dst.old dst.new at result }
    ensures fits { number < 2 ^ 128 }
{
    put_u128::<E>(number, dst, at)
}

/// Writes bytes as they are.
pub fn put_plain(bytes: &[u8], dst: &mut [u8], at: usize) -> usize
    requires { at + length bytes.now ≤ length dst.old }
    ensures len { length dst.new ≡ length dst.old }
    ensures place { result ≡ at + length bytes.now }
    ensures put { IsPut bytes.now dst.old dst.new at result }
{
    put_bytes(bytes, dst, at)
}

/// A flag as a bit of a word: `worth` if it is set, otherwise 0.
fn flag(set: bool, worth: u32) -> u32
    requires { worth ≤ 4 }
    ensures value { result ≡ flag set worth }
    ensures bound { result ≤ worth }
{
    if set { worth } else { 0 }
}

/// Flags as a word.
fn flags_word(flags: &Flags) -> u32
    ensures { result ≡ flags_word flags.now }
{
    flag(flags.has_empty, 1) + flag(flags.is_utf8, 2) + flag(flags.is_always_start_anchored, 4)
}

/// Writes the head of an image. `label` is the label with its NUL and its padding.
pub fn put_head<E: Endian>(label: &[u8], flags: &Flags, dst: &mut [u8], at: usize) -> usize
    requires label { length label.now ≡ 32 }
    requires fits { at + 48 ≤ length dst.old }
    ensures len { length dst.new ≡ length dst.old }
    ensures place { result ≡ at + 48 }
    ensures put { IsPut (label.now ++ behind_label E.order flags.now) dst.old dst.new at result }
{
    let label = put_plain(label, dst, at);
    let order = put_word::<E>(ENDIANNESS, dst, label);
    let version = put_word::<E>(VERSION, dst, order);
    let unused = put_word::<E>(0, dst, version);
    put_word::<E>(flags_word(flags), dst, unused)
}

/// The number of a start kind.
pub fn kind_number(kind: StartKind) -> u32
    ensures { result ≡ kind_number kind }
{
    match kind {
        StartKind::Both => 0,
        StartKind::Unanchored => 1,
        StartKind::Anchored => 2,
    }
}

/// The number of a start context.
pub fn context_number(context: Start) -> u8
    ensures { result ≡ context_number context }
{
    match context {
        Start::NonWordByte => 0,
        Start::WordByte => 1,
        Start::Text => 2,
        Start::LineLF => 3,
        Start::LineCR => 4,
        Start::CustomLineTerminator => 5,
    }
}

/// A universal start as a word, or the word for none.
pub fn universal_word(start: Option<StateID>) -> u32
    ensures { result ≡ number_or_none start }
{
    match start {
        None => NONE,
        Some(id) => id.as_u32(),
    }
}

/// Writes the special ids.
pub fn put_special<E: Endian>(special: &Special, dst: &mut [u8], at: usize) -> usize
    requires { at + 32 ≤ length dst.old }
    ensures len { length dst.new ≡ length dst.old }
    ensures place { result ≡ at + 32 }
    ensures put { IsPut (special_text E.order special.now) dst.old dst.new at result }
{
    let max = put_word::<E>(special.max.as_u32(), dst, at);
    let quit = put_word::<E>(special.quit.as_u32(), dst, max);
    let min_match = put_word::<E>(special.min_match.as_u32(), dst, quit);
    let max_match = put_word::<E>(special.max_match.as_u32(), dst, min_match);
    let min_accel = put_word::<E>(special.min_accel.as_u32(), dst, max_match);
    let max_accel = put_word::<E>(special.max_accel.as_u32(), dst, min_accel);
    let min_start = put_word::<E>(special.min_start.as_u32(), dst, max_accel);
    put_word::<E>(special.max_start.as_u32(), dst, min_start)
}

/// Writes the quit bytes.
pub fn put_quit<E: Endian>(quitset: &ByteSet, dst: &mut [u8], at: usize) -> usize
    requires { at + 32 ≤ length dst.old }
    ensures len { length dst.new ≡ length dst.old }
    ensures place { result ≡ at + 32 }
    ensures put { IsPut (quit_text E.order quitset.now) dst.old dst.new at result }
{
    let (low, high) = quitset.halves();
    let end = put_wide::<E>(low, dst, at);
    put_wide::<E>(high, dst, end)
}
