//! The bytes at which a search that skips from a row stops.

ghost use Rattle.std.specs.Prelude.{◌≡◌, ◌<◌, ◌≤◌, ◌+◌, ◌*◌, ◌^◌, ◌-◌, ◌==◌, ◌++◌, [], ◌∷◌, length, get_or};
ghost use Rattle.std.specs.Prelude.{Contains, IfOk, OnErr, if◌then◌else◌};
ghost use Rattle.rx_dense.specs.Accels.{accel_lists, takes, word_needles};

use rx_base::Needles;
use std::alloc::{AllocError, Global};
use std::marker::Model;

/// A space, which is never a needle: it is too frequent for a skip to gain anything.
const SPACE: u8 = b' ';

/// The needles of one row: at most three bytes that lead it elsewhere.
///
/// Contracts see it as the list of these bytes.
#[derive(Clone, Debug, Drop)]
pub struct Accel {
    len: usize,
    bytes: [u8; 3],
}

impl Model for Accel {
    ghost use Rattle.std.specs.Prelude.{ℕ, ◌≤◌, List, take};

    ghost Value = { List ℕ };

    ghost view = { λ a. take a.len a.bytes };

    ghost invariant = { λ a. a.len ≤ 3 };
}

impl Accel {
    /// No needles.
    pub fn new() -> Accel
        ensures { result ≡ [] }
    {
        Accel {
            len: 0,
            bytes: [0; 3],
        }
    }

    /// Adds a byte behind the others. A fourth byte and a space are refused, with the answer false.
    pub fn add(&mut self, byte: u8) -> bool
        requires { Contains self.old byte → ⊥ }
        ensures exactly { result ≡ takes self.old byte }
        ensures after { self.new ≡ (if result then self.old ++ byte ∷ [] else self.old) }
    {
        if self.len >= 3 || byte == SPACE {
            return false;
        }
        self.bytes[self.len] = byte;
        self.len += 1;
        true
    }

    /// How many needles there are.
    pub fn len(&self) -> usize
        ensures value { result ≡ length self.now }
        ensures bound { result ≤ 3 }
    {
        self.len
    }

    /// Whether there are none.
    pub fn is_empty(&self) -> bool
        ensures { result ≡ (length self.now == 0) }
    {
        self.len == 0
    }

    /// The needles.
    pub fn needles(&self) -> &[u8]
        ensures { result.now ≡ self.now }
    {
        &self.bytes[..self.len]
    }

    /// The needles of a list of at most three bytes. A space may be among them.
    pub fn from_needles(needles: Needles) -> Accel
        ensures { result ≡ needles }
    {
        let mut bytes = [0; 3];
        let len = needles.len();
        bytes[..len].copy_from_slice(needles.as_slice());
        Accel { len, bytes }
    }

    /// The word that keeps the needles: their number, and three bytes.
    fn word(&self) -> u32
        ensures { word_needles result ≡ self.now }
    {
        let [a, b, c] = self.bytes;
        self.len as u32 + a as u32 * 256 + b as u32 * 65536 + c as u32 * 16777216
    }
}

/// The needles of several rows, in the order of the rows: fewer than 2^32.
///
/// Contracts see it as the list of their needles.
#[derive(Drop)]
pub struct Accels {
    /// Two words for each row: the number of needles and three bytes, and four bytes that are 0.
    words: Vec<u32>,
}

impl Model for Accels {
    ghost use Rattle.std.specs.Prelude.{ℕ, ◌≡◌, ◌<◌, ◌*◌, ◌^◌, ◌%◌, List, length};
    ghost use Rattle.rx_dense.specs.Accels.{accel_lists};

    ghost Value = { List (List ℕ) };

    ghost view = { λ a. accel_lists a.words.items };

    ghost invariant = { λ a. (length a.words.items % 2 ≡ 0) × (length a.words.items < 2 * 2 ^ 32) };
}

impl Accels {
    /// No rows.
    pub fn empty(alloc: Global) -> Result<Accels, AllocError>
        ensures { IfOk result (λ accels. accels ≡ []) }
    {
        Ok(Accels {
            words: Vec::new(alloc),
        })
    }

    /// No rows, with room for so many.
    pub fn with_capacity(alloc: Global, capacity: usize) -> Result<Accels, AllocError>
        requires { capacity < 2 ^ 32 }
        ensures { IfOk result (λ accels. accels ≡ []) }
    {
        Ok(Accels {
            words: Vec::with_capacity(alloc, 2 * capacity)?,
        })
    }

    /// Adds the needles of the next row. Where memory runs out, nothing is added.
    pub fn add(&mut self, accel: Accel) -> Result<(), AllocError>
        requires { length self.old < 2 ^ 32 - 1 }
        ensures ok { IfOk result (λ _. self.new ≡ self.old ++ accel ∷ []) }
        ensures err { OnErr result (self.new ≡ self.old) }
    {
        self.words.extend_from_slice(&[accel.word(), 0])?;
        Ok(())
    }

    /// The words, two for each row, for a table to keep.
    pub(crate) fn into_words(self) -> Vec<u32>
        ensures value { accel_lists result.items ≡ self }
        ensures bound { length result.items < 2 * 2 ^ 32 }
    {
        self.words
    }

    /// The words, two for each row.
    fn words(&self) -> &[u32]
        ensures value { accel_lists result.now ≡ self.now }
        ensures bound { length result.now < 2 * 2 ^ 32 }
    {
        self.words.as_slice()
    }

    /// How many rows there are.
    pub fn len(&self) -> usize
        ensures value { result ≡ length self.now }
        ensures bound { result < 2 ^ 32 }
    {
        self.words().len() / 2
    }

    /// The needles of a row, by its place among the rows.
    pub fn needles(&self, i: usize) -> Needles
        requires { i < length self.now }
        ensures { result ≡ get_or self.now i [] }
    {
        let words = self.words();
        needles_of(words[2 * i])
    }

    /// The needles of each row, in the order of the rows.
    pub fn iter(&self) -> IterAccels<'_>
        ensures { result ≡ self.now }
    {
        IterAccels {
            accels: self,
            at: 0,
        }
    }

    /// The bytes that the rows take: 4, and 8 for each row.
    pub fn memory_usage(&self) -> usize
        ensures { result ≡ 4 + 8 * length self.now }
    {
        4 + 8 * self.len()
    }
}

/// The needles that [`Accels::iter`] yields, those of one row at a time.
///
/// Contracts see it as the list of those that are left.
#[derive(Drop)]
pub struct IterAccels<'a> {
    accels: &'a Accels,
    /// The place of the first row that wasn't yielded.
    at: usize,
}

impl<'a> Model for IterAccels<'a> {
    ghost use Rattle.std.specs.Prelude.{ℕ, List, drop};

    ghost Value = { List (List ℕ) };

    ghost view = { λ i. drop i.at i.accels.now };
}

impl<'a> Iterator for IterAccels<'a> {
    ghost use Rattle.std.specs.Iterator.{YieldsFirst, item_count};

    type Item = Accel;

    ghost next_gives = { YieldsFirst (λ left. left) };

    ghost remaining = { item_count (λ left. left) };

    fn next(&mut self) -> Option<Accel> {
        if self.at >= self.accels.len() {
            return None;
        }
        let needles = self.accels.needles(self.at);
        self.at += 1;
        Some(Accel::from_needles(needles))
    }
}

/// The needles that a first word keeps.
#[inline(always)]
pub(crate) fn needles_of(word: u32) -> Needles
    ensures { result ≡ word_needles word }
{
    let [len, a, b, c] = word.to_le_bytes();
    match len {
        0 => Needles::new(&[]),
        1 => Needles::new(&[a]),
        2 => Needles::new(&[a, b]),
        _ => Needles::new(&[a, b, c]),
    }
}
