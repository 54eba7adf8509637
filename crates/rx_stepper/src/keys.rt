//! States as keys.

ghost use Rattle.std.specs.Prelude.{◌≡◌, ◌≤◌, ◌<◌, ◌+◌, ◌^◌, ◌++◌, ◌∷◌, ◌==◌, ◌&&◌, if◌then◌else◌, not, All, OnOk};
ghost use Rattle.std.specs.Prelude.{length, slice_index, take};
ghost use Rattle.rx_spec.specs.Causes.{max_id};
ghost use Rattle.rx_base.specs.FactBits.{bit, facts_with};
ghost use Rattle.rx_stepper.specs.Keys.{label_of, led_of, own_of};

use rx_base::{Facts, PatternID, StateID};
use std::alloc::AllocError;

/// What a key has before its label and rows, beside the label's length.
#[derive(Clone, Copy)]
pub(crate) struct Head {
    /// The number of the facts about the last unit.
    pub(crate) context: u8,
    /// Whether the other rows of the lead-in follow those in the key.
    pub(crate) is_led: bool,
}

/// The label of a key's state.
#[tactic(auto, unfolding(crate::specs::Keys::label_of))]
pub(crate) fn label_of(key: &[u32]) -> &[u32]
    ensures { result.now ≡ label_of key.now }
{
    if key.len() < 3 {
        return &[];
    }
    let numbers = &key[3..];
    let len = key[1] as usize;
    if numbers.len() <= len {
        numbers
    } else {
        &numbers[..len]
    }
}

/// The number at an index of a key, or 0 past its end.
fn number(key: &[u32], place: usize) -> u64
    ensures value { result ≡ slice_index key.now place }
    ensures bound { result < 2 ^ 32 }
{
    match key.get(place) {
        Some(number) => u64::from(*number),
        None => 0,
    }
}

/// The rows that are written in a key.
pub(crate) fn own_of(key: &[u32]) -> &[u32]
    requires { 3 + slice_index key.now 1 ≤ length key.now }
    ensures { result.now ≡ own_of key.now }
{
    &key[3..][key[1] as usize..]
}

/// Whether the other rows of the lead-in follow them.
pub(crate) fn is_led(key: &[u32]) -> bool
    ensures { result ≡ led_of key.now }
{
    number(key, 2) == 1
}

/// The facts about the last unit.
pub(crate) fn context_of(key: &[u32]) -> Facts
    requires { slice_index key.now 0 < 256 }
    ensures { result ≡ facts_with (slice_index key.now 0) }
{
    Facts::from_bits(number(key, 0) as u8)
}

/// Whether a state with these rows, followed by the lead-in's or not, and this label is dead.
pub(crate) fn is_dead(is_led: bool, own: &[StateID], label: &[PatternID]) -> bool
    ensures { result ≡ (not is_led && (length own.now == 0) && (length label.now == 0)) }
{
    !is_led && own.is_empty() && label.is_empty()
}

/// The number of the facts to keep beside rows. It is 0 if no row asserts, since the facts don't matter then.
pub(crate) fn kept(asks: bool, context: u8) -> u8
    ensures { result ≡ (if asks then context else 0) }
{
    if asks { context } else { 0 }
}

/// Writes the key of a state.
pub(crate) fn write(
    head: Head,
    label: &[PatternID],
    own: &[StateID],
    key: &mut Vec<u32>,
) -> Result<(), AllocError>
    requires { length label.now < 2 ^ 32 }
    ensures items { OnOk result (key.new.items
        ≡ head.context ∷ (length label.now ∷ (bit head.is_led ∷ (label.now ++ own.now)))) }
    ensures label { OnOk result (All (λ k. k ≤ max_id) label.now) }
{
    key.resize(3 + label.len() + own.len(), 0)?;
    key[0] = u32::from(head.context);
    key[1] = label.len() as u32;
    key[2] = u32::from(head.is_led);
    write_patterns(label, 3, key);
    write_rows(own, 3 + label.len(), key);
    Ok(())
}

/// Writes the numbers of patterns from an index of a key on.
fn write_patterns(patterns: &[PatternID], place: usize, key: &mut [u32])
    requires { place + length patterns.now ≤ length key.old }
    ensures len { length key.new ≡ length key.old }
    ensures numbers { take (place + length patterns.now) key.new ≡ take place key.old ++ patterns.now }
    ensures bound { All (λ k. k ≤ max_id) patterns.now }
{
    for i in 0..patterns.len() {
        key[place + i] = patterns[i].as_u32();
    }
}

/// Writes the numbers of rows from an index of a key on, to its end.
fn write_rows(rows: &[StateID], place: usize, key: &mut [u32])
    requires { place + length rows.now ≡ length key.old }
    ensures len { length key.new ≡ length key.old }
    ensures numbers { key.new ≡ take place key.old ++ rows.now }
{
    for i in 0..rows.len() {
        key[place + i] = rows[i].as_u32();
    }
}
