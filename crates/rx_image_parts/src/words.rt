//! Words.

ghost use Rattle.std.specs.Prelude.{◌≡◌, ◌+◌, ◌*◌, ◌^◌, ◌<◌, ◌≤◌, IfOk, IfErr, length};
ghost use Rattle.rx_wire.specs.Kinds.{Gives, Kind};
ghost use Rattle.rx_image_parts.specs.Words.{AreWords, word_at, words_at, words_of};

use rx_wire::{DeserializeError, Order, split_items};
use std::alloc::Global;

/// The number of a word, as a count.
pub fn count_of(word: u32) -> usize
    ensures value { result ≡ word }
    ensures bound { result < 2 ^ 32 }
{
    word as usize
}

/// The word at a place.
#[tactic(auto, using(crate::proofs::WordBytes::four))]
pub fn word_at(order: Order, bytes: &[u8], i: usize) -> u32
    requires { 4 * i + 4 ≤ length bytes.now }
    ensures { result ≡ word_at order bytes.now i }
{
    let at = 4 * i;
    order.u32_from_bytes([bytes[at], bytes[at + 1], bytes[at + 2], bytes[at + 3]])
}

/// All words of some bytes. Their bytes are there, so no more memory is asked for than they take.
fn words_of(
    alloc: Global,
    order: Order,
    bytes: &[u8],
    count: usize,
) -> Result<Vec<u32>, DeserializeError>
    requires { length bytes.now ≡ 4 * count }
    ensures ok { IfOk result (λ words. words.items ≡ words_of order bytes.now count) }
    ensures len { IfOk result (λ words. length words.items ≡ count) }
    ensures words { IfOk result (λ words. AreWords words.items) }
    ensures memory { IfErr result (λ kind. kind ≡ Kind.Memory) }
{
    let mut words = vec![in alloc; 0; count]?;
    for i in 0..count {
        words[i] = word_at(order, bytes, i);
    }
    Ok(words)
}

/// So many words, and the bytes after them.
#[tactic(auto, unfolding(crate::specs::Words::words_at))]
pub fn split_words<'a>(
    alloc: Global,
    order: Order,
    count: usize,
    bytes: &'a [u8],
    what: &'static str,
) -> Result<(Vec<u32>, &'a [u8]), DeserializeError>
    ensures read { Gives (λ x. (x.0.items, x.1.now)) result (words_at order count bytes.now) }
    ensures len { IfOk result (λ x. length x.0.items ≡ count) }
    ensures words { IfOk result (λ x. AreWords x.0.items) }
{
    let (front, rest) = split_items(count, 4, bytes, what)?;
    let words = words_of(alloc, order, front, count)?;
    Ok((words, rest))
}
