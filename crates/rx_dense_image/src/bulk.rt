//! Reads many words of rows in one loop that converts, masks, stores and tests them without a branch.

ghost use Rattle.std.specs.Prelude.{◌≡◌, ℕ, ◌+◌, ◌*◌, ◌^◌, ◌<◌, ◌≤◌, ◌&&◌, bit_and, length, max, slice_index, IfOk};
ghost use Rattle.rx_image_parts.specs.Below.{each_below};
ghost use Rattle.rx_dense_image.specs.Bulk.{AreColumns, all_bits, is_clean, kept_word, may_stand, word_stands};
ghost use Rattle.rx_image_parts.specs.Words.{word_at};

use rx_wire::Order;
use std::alloc::{AllocError, Global};

/// What is wrong with some words, collected without a branch.
#[derive(Clone, Copy, Debug)]
pub(crate) struct Wrong {
    /// The bits of all words. Those below the stride are clear if each word is a multiple of it.
    pub low: u32,
    /// The greatest word.
    pub greatest: u32,
    /// All bits if some word is the one that its column forbids, otherwise none.
    pub forbidden: u32,
}

impl Wrong {
    /// No words.
    const NOTHING: Wrong = Wrong {
        low: 0,
        greatest: 0,
        forbidden: 0,
    };

    /// The same with one more word and the number that its column forbids.
    #[inline(always)]
    #[tactic(auto, using(crate::proofs::Collected::one_more_word))]
    fn with(self, word: u32, forbidden: u32) -> Wrong
        ensures { (s last : ℕ) → is_clean (2 ^ s) last result
            ≡ (is_clean (2 ^ s) last self && may_stand (2 ^ s) last forbidden word) }
    {
        Wrong {
            low: self.low | word,
            greatest: greater(self.greatest, word),
            forbidden: self.forbidden | all_bits(word == forbidden),
        }
    }
}

/// The greater of two words.
#[inline(always)]
fn greater(a: u32, b: u32) -> u32
    ensures { result ≡ max a b }
{
    if a < b { b } else { a }
}

/// All bits if `set`, otherwise none.
#[inline(always)]
pub(crate) fn all_bits(set: bool) -> u32
    ensures { result ≡ all_bits set }
{
    if set { u32::MAX } else { 0 }
}

/// What the columns of rows may hold, repeated for as many whole rows as fit.
#[derive(Clone, Copy)]
pub(crate) struct Columns<'a> {
    /// The byte order of a word.
    pub order: Order,
    /// The bits that a column keeps: all for a column of the alphabet, none for padding.
    pub kept: &'a [u32],
    /// The number that a column forbids.
    pub forbidden: &'a [u32],
}

impl<'a> Columns<'a> {
    /// The word at an index, without the bits that its column drops.
    #[inline(always)]
    #[tactic(auto, using(rx_image_parts::proofs::WordBytes::four))]
    fn word(&self, bytes: &[u8], place: usize, column: usize) -> u32
        requires bytes { 4 * place + 4 ≤ length bytes.now }
        requires column { column < length self.now.kept.now }
        ensures { result ≡ bit_and (word_at self.now.order bytes.now place) (slice_index self.now.kept.now column) }
    {
        let at = 4 * place;
        self.order
            .u32_from_bytes([bytes[at], bytes[at + 1], bytes[at + 2], bytes[at + 3]])
            & self.kept[column]
    }

    /// Reads the words and returns what is wrong with them. Each word is stored once, into memory that isn't written
    /// before.
    pub fn read(
        &self,
        alloc: Global,
        bytes: &[u8],
        count: usize,
    ) -> Result<(Vec<u32>, Wrong), AllocError>
        requires bytes { length bytes.now ≡ 4 * count }
        requires columns { AreColumns self.now }
        ensures len { IfOk result (λ x. length x.0.items ≡ count) }
        ensures words { IfOk result (λ x. (k : ℕ) → k < count
            → slice_index x.0.items k ≡ kept_word self.now bytes.now k) }
        ensures clean { IfOk result (λ x. (s last : ℕ) → is_clean (2 ^ s) last x.1
            ≡ each_below count (word_stands s last self.now bytes.now)) }
    {
        let mut words = Vec::with_capacity(alloc, count)?;
        let mut wrong = Wrong::NOTHING;
        let mut at = 0;
        'rounds: while at < count {
            let round = self.kept.len().min(count - at);
            'columns: for column in 0..round {
                let word = self.word(bytes, at + column, column);
                words.push_reserved(word);
                wrong = wrong.with(word, self.forbidden[column]);
            }
            at += round;
        }
        Ok((words, wrong))
    }
}
