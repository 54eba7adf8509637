//! The parts of a row in memory.

ghost use Rattle.std.specs.Prelude.{◌≡◌, ◌+◌, ◌-◌, ◌*◌, ◌/◌, ◌<◌, ◌≤◌, ◌∷◌, drop, length, map};
ghost use Rattle.std.specs.List.{range_with_len};
ghost use Rattle.std.specs.Int.{w16};
ghost use Rattle.rx_wire.specs.Fields.{number};
ghost use Rattle.rx_sparse.specs.Parts.{IsWholeRow};
ghost use Rattle.rx_sparse.specs.Rows.{ends_text, head_number, next_among, next_ids, patterns_len, patterns_text};
ghost use Rattle.rx_sparse.specs.Rows.{range_in, row_in, row_len, word_at, words_text};

use rx_image_parts::word_at;
use rx_wire::Order;

/// The bytes of a row, part by part.
#[derive(Clone, Copy)]
pub(crate) struct RowParts<'a> {
    /// The number of ranges with that of end of input. The highest bit is set for a match row.
    pub head: u16,
    /// The first and last class of each range and of end of input.
    pub ends: &'a [u8],
    /// The ids to which the ranges and end of input lead.
    pub next_ids: &'a [u8],
    /// The number of patterns and the patterns. Empty unless the row is a match row.
    pub patterns: &'a [u8],
    /// The number of needles and the needles.
    pub needles: &'a [u8],
}

/// The number that two bytes spell.
#[tactic(auto, using(rx_sparse::proofs::WordBytes::two))]
fn head_number(order: Order, bytes: &[u8]) -> u16
    requires { length bytes.now ≡ 2 }
    ensures { result ≡ number order w16 bytes.now }
{
    order.u16_from_bytes([bytes[0], bytes[1]])
}

/// The length in bytes of a row's patterns with their count.
fn patterns_len(order: Order, is_match: bool, rest: &[u8]) -> usize
    requires { patterns_len order is_match rest.now < length rest.now }
    ensures { result ≡ patterns_len order is_match rest.now }
{
    if is_match {
        4 + 4 * word_at(order, rest, 0) as usize
    } else {
        0
    }
}

/// The parts of the row that some bytes begin with, and the bytes after it.
pub(crate) fn split_parts(order: Order, bytes: &[u8]) -> (RowParts<'_>, &[u8])
    requires { IsWholeRow order bytes.now }
    ensures head { result.0.head ≡ head_number (row_in order bytes.now) }
    ensures ends { result.0.ends.now ≡ ends_text (row_in order bytes.now).ranges }
    ensures next_ids { result.0.next_ids.now ≡ words_text order (next_ids (row_in order bytes.now)) }
    ensures patterns { result.0.patterns.now ≡ patterns_text order (row_in order bytes.now).patterns }
    ensures needles { result.0.needles.now
        ≡ length (row_in order bytes.now).needles ∷ (row_in order bytes.now).needles }
    ensures rest { result.1.now ≡ drop (row_len (row_in order bytes.now)) bytes.now }
{
    let (head, rest) = bytes.split_at(2);
    let head = head_number(order, head);
    let count = head as usize % 32768;
    let (ends, rest) = rest.split_at(2 * count);
    let (next_ids, rest) = rest.split_at(4 * count);
    let (patterns, rest) = rest.split_at(patterns_len(order, head >= 32768, rest));
    let (needles, rest) = rest.split_at(1 + rest[0] as usize);
    let parts = RowParts {
        head,
        ends,
        next_ids,
        patterns,
        needles,
    };
    (parts, rest)
}

impl<'a> RowParts<'a> {
    /// The number of ranges, with that of end of input.
    pub(crate) fn len(&self) -> usize
        ensures { result ≡ length self.now.ends.now / 2 }
    {
        self.ends.len() / 2
    }

    /// The id to which the range at an index leads. That of end of input is the last.
    pub(crate) fn next_id(&self, order: Order, i: usize) -> usize
        requires { 4 * i + 4 ≤ length self.now.next_ids.now }
        ensures { result ≡ word_at order self.now.next_ids.now i }
    {
        word_at(order, self.next_ids, i) as usize
    }

    /// The id to which a class leads, or 0 if no range has the class.
    pub(crate) fn next(&self, order: Order, class: u8) -> usize
        requires some { 2 ≤ length self.now.ends.now }
        requires words { length self.now.next_ids.now ≡ 2 * length self.now.ends.now }
        ensures { result ≡ next_among
            (map (range_in order self.now.ends.now self.now.next_ids.now)
            (range_with_len 0 (length self.now.ends.now / 2 - 1))) class }
    {
        for i in 0..self.len() - 1 {
            if self.ends[2 * i] <= class && class <= self.ends[2 * i + 1] {
                return self.next_id(order, i);
            }
        }
        0
    }
}
