//! Writes rows in another byte order.

ghost use Rattle.std.specs.Prelude.{◌≡◌, ◌+◌, ◌/◌, ◌%◌, ◌<◌, ◌≤◌, drop, length};
ghost use Rattle.std.specs.Int.{w16};
ghost use Rattle.rx_wire.specs.declared.order.Order.{Order};
ghost use Rattle.rx_wire.specs.Fields.{field};
ghost use Rattle.rx_image_parts.specs.Written.{IsPut};
ghost use Rattle.rx_sparse.specs.Parts.{IsWholeRow};
ghost use Rattle.rx_sparse.specs.Rows.{patterns_len, row_in, row_len, row_text, rows_in, rows_text, words_in};
ghost use Rattle.rx_sparse.specs.Rows.{words_text};
ghost use Rattle.rx_sparse_image.specs.Turned.{AreWholeRows};

use crate::row_parts::split_parts;
use rx_image_parts::{put_plain, put_word, word_at};
use rx_wire::{Endian, Order};

fn put_half<E: Endian>(number: u16, dst: &mut [u8], at: usize) -> usize
    requires { at + 2 ≤ length dst.old }
    ensures len { length dst.new ≡ length dst.old }
    ensures place { result ≡ at + 2 }
    ensures put { IsPut (field E.order w16 number) dst.old dst.new at result }
{
    E::write_u16(number, &mut dst[at..]);
    at + 2
}

/// Writes words that are in the byte order `order`.
fn put_words<E: Endian>(order: Order, words: &[u8], dst: &mut [u8], at: usize) -> usize
    requires whole { length words.now % 4 ≡ 0 }
    requires fits { at + length words.now ≤ length dst.old }
    ensures len { length dst.new ≡ length dst.old }
    ensures place { result ≡ at + length words.now }
    ensures put { IsPut (words_text E.order (words_in order (length words.now / 4) words.now))
        dst.old dst.new at result }
{
    let count = words.len() / 4;
    let mut end = at;
    for i in 0..count {
        end = put_word::<E>(word_at(order, words, i), dst, end);
    }
    end
}

/// Writes the row that some bytes begin with. Returns the bytes after it too.
fn put_row<'a, E: Endian>(
    order: Order,
    bytes: &'a [u8],
    dst: &mut [u8],
    at: usize,
) -> (usize, &'a [u8])
    requires whole { IsWholeRow order bytes.now }
    requires fits { at + row_len (row_in order bytes.now) ≤ length dst.old }
    ensures len { length dst.new ≡ length dst.old }
    ensures place { result.0 ≡ at + row_len (row_in order bytes.now) }
    ensures rest { result.1.now ≡ drop (row_len (row_in order bytes.now)) bytes.now }
    ensures put { IsPut (row_text E.order (row_in order bytes.now)) dst.old dst.new at result.0 }
{
    let (row, rest) = split_parts(order, bytes);
    let mut end = put_half::<E>(row.head, dst, at);
    end = put_plain(row.ends, dst, end);
    end = put_words::<E>(order, row.next_ids, dst, end);
    end = put_words::<E>(order, row.patterns, dst, end);
    (put_plain(row.needles, dst, end), rest)
}

/// Writes rows that are in the byte order `order`.
pub(crate) fn put_rows<E: Endian>(
    order: Order,
    count: usize,
    bytes: &[u8],
    dst: &mut [u8],
    at: usize,
) -> usize
    requires rows { AreWholeRows order count bytes.now }
    requires fits { at + length bytes.now ≤ length dst.old }
    ensures len { length dst.new ≡ length dst.old }
    ensures place { result ≡ at + length bytes.now }
    ensures put { IsPut (rows_text E.order (rows_in order count bytes.now)) dst.old dst.new at result }
{
    let mut end = at;
    let mut rest = bytes;
    for _ in 0..count {
        (end, rest) = put_row::<E>(order, rest, dst, end);
    }
    end
}
