//! Reads single words of a script: numbers, bytes, sets of bytes and modes.

ghost use Rattle.std.specs.Prelude.{◌≡◌, ◌≤◌, ◌==◌, option_map, bit_or, IfOk, IfSome};
ghost use Rattle.std.specs.List.{slice_split};
ghost use Rattle.std.specs.Str.{bytes_eq};
ghost use Rattle.rx_spec.specs.Bytes.{between};
ghost use Rattle.rx_script.specs.Tokens.{number_of, number_from, most_of, digit_of, byte_of, one_byte, pairs_of};
ghost use Rattle.rx_script.specs.Tokens.{bytes_of, value_of};
ghost use Rattle.rx_script.specs.Tokens.{single, ordered, range_of, ranges_from, set_of_word, numbered_mode, mode_word};

use crate::names::anchored_of;
use crate::pieces::cut;
use rx_base::{Anchored, ByteSet, PatternID};
use std::alloc::{AllocError, Global};

/// The limit of numbers: each number is below it.
const NUMBER_LIMIT: u64 = 1 << 32;

/// The value of a byte that isn't a hexadecimal digit.
const NO_DIGIT: u8 = 16;

/// The value of each byte as a hexadecimal digit of either case. A table, so that long texts are read without a branch
/// for each digit.
const HEX_VALUES: [u8; 256] = [
    16, 16, 16, 16, 16, 16, 16, 16, 16, 16, 16, 16, 16, 16, 16, 16, 16, 16, 16, 16, 16, 16, 16, 16,
    16, 16, 16, 16, 16, 16, 16, 16, 16, 16, 16, 16, 16, 16, 16, 16, 16, 16, 16, 16, 16, 16, 16, 16,
    0, 1, 2, 3, 4, 5, 6, 7, 8, 9, 16, 16, 16, 16, 16, 16, 16, 10, 11, 12, 13, 14, 15, 16, 16, 16,
    16, 16, 16, 16, 16, 16, 16, 16, 16, 16, 16, 16, 16, 16, 16, 16, 16, 16, 16, 16, 16, 16, 16, 10,
    11, 12, 13, 14, 15, 16, 16, 16, 16, 16, 16, 16, 16, 16, 16, 16, 16, 16, 16, 16, 16, 16, 16, 16,
    16, 16, 16, 16, 16, 16, 16, 16, 16, 16, 16, 16, 16, 16, 16, 16, 16, 16, 16, 16, 16, 16, 16, 16,
    16, 16, 16, 16, 16, 16, 16, 16, 16, 16, 16, 16, 16, 16, 16, 16, 16, 16, 16, 16, 16, 16, 16, 16,
    16, 16, 16, 16, 16, 16, 16, 16, 16, 16, 16, 16, 16, 16, 16, 16, 16, 16, 16, 16, 16, 16, 16, 16,
    16, 16, 16, 16, 16, 16, 16, 16, 16, 16, 16, 16, 16, 16, 16, 16, 16, 16, 16, 16, 16, 16, 16, 16,
    16, 16, 16, 16, 16, 16, 16, 16, 16, 16, 16, 16, 16, 16, 16, 16, 16, 16, 16, 16, 16, 16, 16, 16,
    16, 16, 16, 16, 16, 16, 16, 16, 16, 16, 16, 16, 16, 16,
];

/// Whether a word is this text.
fn is(word: &[u8], text: &[u8]) -> bool
    ensures { result ≡ bytes_eq word.now text.now }
{
    word == text
}

/// The number that a word spells in decimal, below 2^32 and without leading zeros.
pub fn number(word: &[u8]) -> Option<u32>
    ensures { result ≡ number_of word.now }
{
    match word {
        [] => None,
        [b'0', _, ..] => None,
        _ => digits(word),
    }
}

fn digits(word: &[u8]) -> Option<u32>
    ensures { result ≡ number_from 0 word.now }
{
    let mut value = 0;
    'digits: for byte in word {
        let digit = *byte;
        if digit < b'0' || digit > b'9' {
            return None;
        }
        value = 10 * value + u64::from(digit - b'0');
        if value >= NUMBER_LIMIT {
            return None;
        }
    }
    Some(value as u32)
}

/// The greatest number of rounds of a repetition: a number, or `inf` for no limit.
#[tactic(auto, unfolding(crate::specs::Tokens::most_of))]
pub fn most(word: &[u8]) -> Option<Option<u32>>
    ensures { result ≡ most_of word.now }
{
    if is(word, b"inf") {
        return Some(None);
    }
    number(word).map(|most| Some(most))
}

/// The value of a hexadecimal digit, or `NO_DIGIT`.
#[inline]
fn hex_value(digit: u8) -> u8
    ensures { result ≡ value_of (digit_of digit) }
{
    HEX_VALUES[digit as usize]
}

/// The byte that two hexadecimal digits spell.
#[inline]
fn byte(high: u8, low: u8) -> Option<u8>
    ensures { result ≡ byte_of high low }
{
    let high_value = hex_value(high);
    let low_value = hex_value(low);
    if high_value >= NO_DIGIT {
        return None;
    }
    if low_value >= NO_DIGIT {
        return None;
    }
    Some(16 * high_value + low_value)
}

/// The byte that a word of two hexadecimal digits spells.
pub fn one_byte(word: &[u8]) -> Option<u8>
    ensures { result ≡ one_byte word.now }
{
    match word {
        [high, low] => byte(*high, *low),
        _ => None,
    }
}

/// The bytes that a word spells: pairs of hexadecimal digits, at least one, or `-` for no byte.
#[tactic(auto, unfolding(crate::specs::Tokens::bytes_of))]
pub fn bytes(alloc: Global, word: &[u8]) -> Result<Option<Vec<u8>>, AllocError>
    ensures { IfOk result (λ o. option_map (λ v. v.items) o ≡ bytes_of word.now) }
{
    if is(word, b"-") {
        return Ok(Some(Vec::new(alloc)));
    }
    if word.is_empty() {
        return Ok(None);
    }
    pairs(alloc, word)
}

fn pairs(alloc: Global, word: &[u8]) -> Result<Option<Vec<u8>>, AllocError>
    ensures { IfOk result (λ o. option_map (λ v. v.items) o ≡ pairs_of word.now) }
{
    let mut bytes = Vec::with_capacity(alloc, word.len() / 2)?;
    let mut at = 0;
    'pairs: while at + 1 < word.len() {
        let Some(byte) = byte(word[at], word[at + 1]) else {
            return Ok(None);
        };
        bytes.push(byte)?;
        at += 2;
    }
    if at < word.len() {
        return Ok(None);
    }
    Ok(Some(bytes))
}

fn single(byte: Option<u8>) -> Option<(u8, u8)>
    ensures value { result ≡ single byte }
    ensures rising { IfSome result (λ r. r.0 ≤ r.1) }
{
    let byte = byte?;
    Some((byte, byte))
}

fn ordered(first: Option<u8>, last: Option<u8>) -> Option<(u8, u8)>
    ensures value { result ≡ ordered first last }
    ensures rising { IfSome result (λ r. r.0 ≤ r.1) }
{
    let first = first?;
    let last = last?;
    if first <= last {
        return Some((first, last));
    }
    None
}

fn range(piece: &[u8]) -> Option<(u8, u8)>
    ensures value { result ≡ range_of piece.now }
    ensures rising { IfSome result (λ r. r.0 ≤ r.1) }
{
    match piece {
        [high, low] => single(byte(*high, *low)),
        [high, low, b'-', to_high, to_low] => ordered(byte(*high, *low), byte(*to_high, *to_low)),
        _ => None,
    }
}

/// The set of bytes that a word spells: `none`, or bytes and ranges of bytes with commas between them.
#[tactic(auto, unfolding(crate::specs::Tokens::set_of_word))]
pub fn set(word: &[u8]) -> Option<ByteSet>
    ensures { result ≡ set_of_word word.now }
{
    if is(word, b"none") {
        return Some(ByteSet::empty());
    }
    ranges(word)
}

fn ranges(word: &[u8]) -> Option<ByteSet>
    ensures { result ≡ ranges_from 0 (slice_split (λ b. b == 44) word.now) }
{
    let mut set = ByteSet::empty();
    let mut rest = Some(word);
    'pieces: while let Some(text) = rest {
        let (piece, after) = cut(b',', text);
        let (first, last) = range(piece)?;
        add_range(&mut set, first, last);
        rest = after;
    }
    Some(set)
}

fn add_range(set: &mut ByteSet, first: u8, last: u8)
    requires { first ≤ last }
    ensures { set.new ≡ bit_or set.old (between first last) }
{
    for byte in first..last {
        set.add(byte);
    }
    set.add(last);
}

fn numbered_mode(word: &[u8]) -> Option<Anchored>
    ensures { result ≡ numbered_mode word.now }
{
    match word {
        [b'p', digits @ ..] => {
            let pattern = number(digits)?;
            match PatternID::new(pattern as usize) {
                Ok(pattern) => Some(Anchored::Pattern(pattern)),
                Err(_) => None,
            }
        }
        _ => None,
    }
}

/// The mode that a word spells.
#[tactic(auto, unfolding(crate::specs::Tokens::mode_word))]
pub fn mode(word: &[u8]) -> Option<Anchored>
    ensures { result ≡ mode_word word.now }
{
    match anchored_of(word) {
        Some(true) => Some(Anchored::Yes),
        Some(false) => Some(Anchored::No),
        None => numbered_mode(word),
    }
}
