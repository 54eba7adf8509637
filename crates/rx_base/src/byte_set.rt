//! Sets of bytes.

ghost use Rattle.std.specs.Prelude.{◌≡◌, ℕ, ◌+◌, ◌*◌, ◌^◌, ◌<◌, ◌≤◌, ◌↔◌, ◌==◌, ◌&&◌, not, IsTrue, true, bit_or};
ghost use Rattle.rx_spec.specs.Bytes.{contains, only, between, all_bytes};
ghost use Rattle.rx_spec.specs.Classes.{parts};

use std::marker::Model;

/// How many bytes each half of a set holds.
const HALF: u8 = 128;

/// The bit of the last byte of a half.
const LAST: u128 = 1 << 127;

/// A set of bytes.
///
/// Contracts see it as a number below 2^256, whose bit b tells whether the byte b is in the set.
#[derive(Clone, Copy, Debug, PartialEq, Eq)]
pub struct ByteSet {
    /// A bit for each byte below 0x80.
    low: u128,
    /// A bit for each byte from 0x80 on.
    high: u128,
}

impl Model for ByteSet {
    ghost use Rattle.std.specs.Prelude.{ℕ, ◌+◌, ◌*◌, ◌^◌, ◌/◌, ◌%◌, ◌<◌};

    ghost Value = { ℕ };

    ghost view = { λ s. s.high * 2 ^ 128 + s.low };

    ghost invariant = { λ s. (s.low < 2 ^ 128) × (s.high < 2 ^ 128) };

    ghost inverse = { λ n. record { low = n % 2 ^ 128; high = n / 2 ^ 128 } };
}

impl ByteSet {
    /// No byte.
    pub fn empty() -> ByteSet
        ensures { result ≡ 0 }
    {
        ByteSet { low: 0, high: 0 }
    }

    /// Every byte.
    pub fn full() -> ByteSet
        ensures { result ≡ all_bytes }
    {
        ByteSet {
            low: u128::MAX,
            high: u128::MAX,
        }
    }

    /// The bytes from 0x80 on.
    pub fn non_ascii() -> ByteSet
        ensures { result ≡ between 128 255 }
    {
        ByteSet {
            low: 0,
            high: u128::MAX,
        }
    }

    /// The set of two halves: a bit for each byte below 0x80, and one for each from 0x80 on.
    pub fn from_halves(low: u128, high: u128) -> ByteSet
        ensures { result ≡ high * 2 ^ 128 + low }
    {
        ByteSet { low, high }
    }

    /// The two halves.
    pub fn halves(&self) -> (u128, u128)
        ensures { self.now ≡ result.1 * 2 ^ 128 + result.0 }
    {
        (self.low, self.high)
    }

    /// Whether a byte is in the set.
    #[inline]
    pub fn contains(&self, byte: u8) -> bool
        ensures { result ≡ contains self.now byte }
    {
        if byte < HALF {
            (self.low >> byte) & 1 == 1
        } else {
            (self.high >> (byte - HALF)) & 1 == 1
        }
    }

    /// Puts a byte into the set.
    pub fn add(&mut self, byte: u8)
        ensures { self.new ≡ bit_or self.old (only byte) }
    {
        if byte < HALF {
            self.low |= 1 << byte;
        } else {
            self.high |= 1 << (byte - HALF);
        }
    }

    /// Takes a byte out of the set.
    pub fn remove(&mut self, byte: u8)
        ensures { (c : ℕ) → contains self.new c ≡ (contains self.old c && not (c == byte)) }
    {
        if byte < HALF {
            self.low &= !(1 << byte);
        } else {
            self.high &= !(1 << (byte - HALF));
        }
    }

    /// The bytes of either set.
    pub fn union(&self, other: &ByteSet) -> ByteSet
        ensures { result ≡ bit_or self.now other.now }
    {
        ByteSet {
            low: self.low | other.low,
            high: self.high | other.high,
        }
    }

    /// The bytes that the set tells apart from the next one, since it has one of the two and not the other.
    pub(crate) fn ends(&self) -> ByteSet
        ensures { (b : ℕ) → b < 255 → contains result b ≡ parts (contains self.now) b (b + 1) }
    {
        // Each byte stands where the one before it stood.
        let low = self.low / 2 + (self.high % 2) * LAST;
        let high = self.high / 2;
        ByteSet {
            low: self.low ^ low,
            high: self.high ^ high,
        }
    }

    /// Whether every byte from `start` to `end` is in the set.
    pub fn contains_range(&self, start: u8, end: u8) -> bool
        requires { start ≤ end }
        ensures { IsTrue result ↔ ((c : ℕ) → start ≤ c → c ≤ end → contains self.now c ≡ true) }
    {
        for byte in start..end {
            if !self.contains(byte) {
                return false;
            }
        }
        self.contains(end)
    }

    /// Whether no byte is in the set.
    pub fn is_empty(&self) -> bool
        ensures { IsTrue result ↔ (self.now ≡ 0) }
    {
        self.low == 0 && self.high == 0
    }
}
