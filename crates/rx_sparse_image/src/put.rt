//! Writes the parts of an image.
//!
//! Each function writes a part at an index and returns the index after it.

ghost use Rattle.std.specs.Prelude.{◌≡◌, ◌+◌, ◌*◌, ◌≤◌, length, map};
ghost use Rattle.rx_wire.specs.declared.order.Order.{Order};
ghost use Rattle.rx_dense.specs.Layouts.{context_number};
ghost use Rattle.rx_image_parts.specs.StartTables.{number_or_none, start_table_text};
ghost use Rattle.rx_image_parts.specs.Words.{words_text};
ghost use Rattle.rx_image_parts.specs.QuitBytes.{quit_text};
ghost use Rattle.rx_image_parts.specs.SpecialIds.{special_text};
ghost use Rattle.rx_image_parts.specs.Written.{IsPut};
ghost use Rattle.rx_sparse.specs.Layouts.{IsShaped};
ghost use Rattle.rx_sparse.specs.Rows.{rows_len, rows_text};
ghost use Rattle.rx_sparse_image.specs.Images.{row_bytes_text};
ghost use Rattle.rx_sparse_image.specs.Images.{image_len, start_table_of, text};

use crate::turned::put_rows;
use rx_base::Start;
use rx_image_parts::{
    CONTEXTS, NONE, context_number, kind_number, put_head, put_plain, put_quit, put_special,
    put_word, universal_word,
};
use rx_search::Automaton;
use rx_sparse::{ByteStore, DFA};
use rx_wire::{Endian, Order};

/// The label with its NUL and its padding.
const LABEL: [u8; 32] = *b"rust-regex-automata-dfa-sparse\0\0";

/// The number of rows, as a word.
fn row_word<T: ByteStore>(dfa: &DFA<T>) -> u32
    requires { IsShaped dfa.now.layout }
    ensures { result ≡ length dfa.now.layout.rows }
{
    dfa.state_len() as u32
}

/// The number of patterns, as a word.
fn pattern_len_word<T: ByteStore>(dfa: &DFA<T>) -> u32
    requires { IsShaped dfa.now.layout }
    ensures { result ≡ dfa.now.layout.pattern_len }
{
    dfa.pattern_len() as u32
}

/// The length of the rows in bytes, as a word.
fn len_word<T: ByteStore>(dfa: &DFA<T>) -> u32
    requires { IsShaped dfa.now.layout }
    ensures { result ≡ rows_len dfa.now.layout.rows }
{
    dfa.row_bytes().len() as u32
}

fn put_row_bytes<E: Endian, T: ByteStore>(
    order: Order,
    dfa: &DFA<T>,
    dst: &mut [u8],
    at: usize,
) -> usize
    requires order { order ≡ E.order }
    requires shaped { IsShaped dfa.now.layout }
    requires fits { at + 268 + rows_len dfa.now.layout.rows ≤ length dst.old }
    ensures len { length dst.new ≡ length dst.old }
    ensures place { result ≡ at + 268 + rows_len dfa.now.layout.rows }
    ensures put { IsPut (row_bytes_text E.order dfa.now.layout) dst.old dst.new at result }
{
    let count = put_word::<E>(row_word(dfa), dst, at);
    let patterns = put_word::<E>(pattern_len_word(dfa), dst, count);
    let classes = put_plain(dfa.byte_classes().as_bytes(), dst, patterns);
    let len = put_word::<E>(len_word(dfa), dst, classes);
    if dfa.order() == order {
        put_plain(dfa.row_bytes(), dst, len)
    } else {
        put_rows::<E>(dfa.order(), dfa.state_len(), dfa.row_bytes(), dst, len)
    }
}

/// The numbers of all contexts.
fn context_numbers<T: ByteStore>(dfa: &DFA<T>) -> [u8; 256]
    requires { IsShaped dfa.now.layout }
    ensures value { result ≡ map context_number dfa.now.layout.contexts }
    ensures len { length result ≡ 256 }
{
    let mut numbers = [0; 256];
    for byte in 0..256 {
        numbers[byte] = context_number(dfa.start_context(byte as u8));
    }
    numbers
}

/// The number of patterns with start rows of their own, as a word.
fn patterns_word<T: ByteStore>(dfa: &DFA<T>) -> u32
    requires { IsShaped dfa.now.layout }
    ensures { result ≡ number_or_none dfa.now.layout.pattern_starts }
{
    match dfa.start_pattern_len() {
        None => NONE,
        Some(patterns) => patterns as u32,
    }
}

fn put_starts<E: Endian, T: ByteStore>(dfa: &DFA<T>, dst: &mut [u8], at: usize) -> usize
    requires { at + 4 * length dfa.now.layout.starts ≤ length dst.old }
    ensures len { length dst.new ≡ length dst.old }
    ensures place { result ≡ at + 4 * length dfa.now.layout.starts }
    ensures put { IsPut (words_text E.order dfa.now.layout.starts) dst.old dst.new at result }
{
    let count = dfa.start_len();
    let mut end = at;
    for i in 0..count {
        end = put_word::<E>(dfa.start_at(i).as_u32(), dst, end);
    }
    end
}

fn put_start_table<E: Endian, T: ByteStore>(dfa: &DFA<T>, dst: &mut [u8], at: usize) -> usize
    requires shaped { IsShaped dfa.now.layout }
    requires fits { at + 276 + 4 * length dfa.now.layout.starts ≤ length dst.old }
    ensures len { length dst.new ≡ length dst.old }
    ensures place { result ≡ at + 276 + 4 * length dfa.now.layout.starts }
    ensures put { IsPut (start_table_text E.order (start_table_of dfa.now.layout)) dst.old dst.new at result }
{
    let kind = put_word::<E>(kind_number(dfa.start_kind()), dst, at);
    let numbers = context_numbers(dfa);
    let contexts = put_plain(&numbers, dst, kind);
    let count = put_word::<E>(CONTEXTS, dst, contexts);
    let patterns = put_word::<E>(patterns_word(dfa), dst, count);
    let (unanchored, anchored) = dfa.universal_starts();
    let first = put_word::<E>(universal_word(unanchored), dst, patterns);
    let second = put_word::<E>(universal_word(anchored), dst, first);
    put_starts::<E, T>(dfa, dst, second)
}

/// The length of an image in bytes.
pub fn image_len<T: ByteStore>(dfa: &DFA<T>) -> usize
    ensures value { result ≡ image_len dfa.now.layout }
    ensures text { (order : Order) → length (text order dfa.now.layout) ≡ result }
    ensures shaped { IsShaped dfa.now.layout }
{
    656 + dfa.row_bytes().len() + 4 * dfa.start_len()
}

/// Writes an image at the front of `dst` and returns its length.
pub fn put_image<E: Endian, T: ByteStore>(order: Order, dfa: &DFA<T>, dst: &mut [u8]) -> usize
    requires order { order ≡ E.order }
    requires shaped { IsShaped dfa.now.layout }
    requires fits { image_len dfa.now.layout ≤ length dst.old }
    ensures len { length dst.new ≡ length dst.old }
    ensures place { result ≡ image_len dfa.now.layout }
    ensures put { IsPut (text E.order dfa.now.layout) dst.old dst.new 0 result }
{
    let head = put_head::<E>(&LABEL, dfa.flags(), dst, 0);
    let rows = put_row_bytes::<E, T>(order, dfa, dst, head);
    let starts = put_start_table::<E, T>(dfa, dst, rows);
    let special = put_special::<E>(dfa.special(), dst, starts);
    put_quit::<E>(dfa.quitset(), dst, special)
}
