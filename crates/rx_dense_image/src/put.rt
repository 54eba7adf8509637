//! Writes the parts of an image.
//!
//! Each function writes a part at an index and returns the index after it.

ghost use Rattle.std.specs.Prelude.{◌≡◌, ℕ, ◌+◌, ◌*◌, ◌/◌, ◌^◌, ◌<◌, ◌≤◌, List, [], get_or, length, map};
ghost use Rattle.rx_wire.specs.declared.order.Order.{Order};
ghost use Rattle.rx_dense.specs.Layouts.{AreLists, AreStarts, context_number};
ghost use Rattle.rx_image_parts.specs.Words.{words_text};
ghost use Rattle.rx_dense_image.specs.Rows.{rows_of, rows_text};
ghost use Rattle.rx_image_parts.specs.StartTables.{kind_number, number_or_none, start_table_text};
ghost use Rattle.rx_dense_image.specs.PatternLists.{pattern_lists_text};
ghost use Rattle.rx_dense_image.specs.Marks.{accel_text, accels_text, marks_text};
ghost use Rattle.rx_dense_image.specs.Images.{image_len, marks_of, pattern_lists_of, start_table_of, text};
ghost use Rattle.rx_image_parts.specs.Written.{IsPut};

use rx_base::Needles;
use rx_dense::{Accels, DFA, WordStore};
use rx_image_parts::{
    CONTEXTS, NONE, context_number, kind_number, put_head, put_plain, put_quit, put_special,
    put_word, universal_word,
};
use rx_search::Automaton;
use rx_wire::Endian;

/// The label with its NUL and its padding.
const LABEL: [u8; 32] = *b"rust-regex-automata-dfa-dense\0\0\0";

fn put_words<E: Endian>(words: &[u32], dst: &mut [u8], at: usize) -> usize
    requires { at + 4 * length words.now ≤ length dst.old }
    ensures len { length dst.new ≡ length dst.old }
    ensures place { result ≡ at + 4 * length words.now }
    ensures put { IsPut (words_text E.order words.now) dst.old dst.new at result }
{
    let mut end = at;
    for word in words {
        end = put_word::<E>(*word, dst, end);
    }
    end
}

/// The number of rows, as a word.
fn row_word<T: WordStore>(dfa: &DFA<T>) -> u32
    ensures { result ≡ length dfa.now.words / 2 ^ dfa.now.stride2 }
{
    dfa.state_len() as u32
}

fn put_rows<E: Endian, T: WordStore>(dfa: &DFA<T>, dst: &mut [u8], at: usize) -> usize
    requires { at + 264 + 4 * length dfa.now.words ≤ length dst.old }
    ensures len { length dst.new ≡ length dst.old }
    ensures place { result ≡ at + 264 + 4 * length dfa.now.words }
    ensures put { IsPut (rows_text E.order (rows_of dfa.now)) dst.old dst.new at result }
{
    let rows = put_word::<E>(row_word(dfa), dst, at);
    let stride2 = put_word::<E>(dfa.stride2() as u32, dst, rows);
    let classes = put_plain(dfa.byte_classes().as_bytes(), dst, stride2);
    put_words::<E>(dfa.words(), dst, classes)
}

/// The numbers of all contexts.
fn context_numbers<T: WordStore>(dfa: &DFA<T>) -> [u8; 256]
    requires { AreStarts dfa.now }
    ensures value { result ≡ map context_number dfa.now.contexts }
    ensures len { length result ≡ 256 }
{
    let mut numbers = [0; 256];
    for byte in 0..256 {
        numbers[byte] = context_number(dfa.start_context(byte as u8));
    }
    numbers
}

/// The number of patterns with start rows of their own, as a word.
fn patterns_word<T: WordStore>(dfa: &DFA<T>) -> u32
    requires { AreStarts dfa.now }
    ensures { result ≡ number_or_none dfa.now.pattern_starts }
{
    match dfa.start_pattern_len() {
        None => NONE,
        Some(patterns) => patterns as u32,
    }
}

fn put_start_table<E: Endian, T: WordStore>(dfa: &DFA<T>, dst: &mut [u8], at: usize) -> usize
    requires { at + 276 + 4 * length dfa.now.starts ≤ length dst.old }
    ensures len { length dst.new ≡ length dst.old }
    ensures place { result ≡ at + 276 + 4 * length dfa.now.starts }
    ensures put { IsPut (start_table_text E.order (start_table_of dfa.now)) dst.old dst.new at result }
{
    let ids = dfa.start_ids();
    let kind = put_word::<E>(kind_number(dfa.start_kind()), dst, at);
    let numbers = context_numbers(dfa);
    let contexts = put_plain(&numbers, dst, kind);
    let count = put_word::<E>(CONTEXTS, dst, contexts);
    let patterns = put_word::<E>(patterns_word(dfa), dst, count);
    let (unanchored, anchored) = dfa.universal_starts();
    let first = put_word::<E>(universal_word(unanchored), dst, patterns);
    let second = put_word::<E>(universal_word(anchored), dst, first);
    put_words::<E>(ids, dst, second)
}

/// The number of match rows, as a word.
fn list_word<T: WordStore>(dfa: &DFA<T>) -> u32
    ensures { result ≡ length dfa.now.slices / 2 }
{
    (dfa.slices().len() / 2) as u32
}

/// The number of pattern ids, as a word.
fn id_word<T: WordStore>(dfa: &DFA<T>) -> u32
    requires { AreLists dfa.now }
    ensures { result ≡ length dfa.now.pattern_ids }
{
    dfa.pattern_ids().len() as u32
}

/// The number of patterns, as a word.
fn pattern_len_word<T: WordStore>(dfa: &DFA<T>) -> u32
    requires { AreLists dfa.now }
    ensures { result ≡ dfa.now.pattern_len }
{
    dfa.pattern_len() as u32
}

fn put_pattern_lists<E: Endian, T: WordStore>(dfa: &DFA<T>, dst: &mut [u8], at: usize) -> usize
    requires { at + 12 + 4 * length dfa.now.slices + 4 * length dfa.now.pattern_ids ≤ length dst.old }
    ensures len { length dst.new ≡ length dst.old }
    ensures place { result ≡ at + 12 + 4 * length dfa.now.slices + 4 * length dfa.now.pattern_ids }
    ensures put { IsPut (pattern_lists_text E.order (pattern_lists_of dfa.now)) dst.old dst.new at result }
{
    let slices = dfa.slices();
    let rows = put_word::<E>(list_word(dfa), dst, at);
    let pairs = put_words::<E>(slices, dst, rows);
    let patterns = put_word::<E>(pattern_len_word(dfa), dst, pairs);
    let count = put_word::<E>(id_word(dfa), dst, patterns);
    put_words::<E>(dfa.pattern_ids(), dst, count)
}

/// The bytes of an accelerator.
fn accel_bytes(needles: Needles) -> [u8; 8]
    ensures value { result ≡ accel_text needles }
    ensures len { length result ≡ 8 }
{
    match needles.as_slice() {
        [a, b, c] => [3, *a, *b, *c, 0, 0, 0, 0],
        [a, b] => [2, *a, *b, 0, 0, 0, 0, 0],
        [a] => [1, *a, 0, 0, 0, 0, 0, 0],
        _ => [0; 8],
    }
}

/// The needles of accelerated rows, fewer than 2^32, in any store.
pub(crate) trait NeedleLists {
    /// The needles of each row.
    ghost lists: { Self → List (List ℕ) };

    fn list_len(&self) -> usize
        ensures value { result ≡ length (lists self.now) }
        ensures bound { result < 2 ^ 32 };

    fn list_at(&self, i: usize) -> Needles
        requires { i < length (lists self.now) }
        ensures { result ≡ get_or (lists self.now) i [] };
}

impl<T: WordStore> NeedleLists for DFA<T> {
    ghost lists = { λ dfa. dfa.accels };

    fn list_len(&self) -> usize {
        self.accel_len()
    }

    fn list_at(&self, i: usize) -> Needles {
        self.needles_at(i)
    }
}

impl NeedleLists for Accels {
    ghost lists = { λ accels. accels };

    fn list_len(&self) -> usize {
        self.len()
    }

    fn list_at(&self, i: usize) -> Needles {
        self.needles(i)
    }
}

pub(crate) fn put_accels<E: Endian, L: NeedleLists>(lists: &L, dst: &mut [u8], at: usize) -> usize
    requires { at + 4 + 8 * length (L.lists lists.now) ≤ length dst.old }
    ensures len { length dst.new ≡ length dst.old }
    ensures place { result ≡ at + 4 + 8 * length (L.lists lists.now) }
    ensures put { IsPut (accels_text E.order (L.lists lists.now)) dst.old dst.new at result }
{
    let count = lists.list_len();
    let mut end = put_word::<E>(count as u32, dst, at);
    for i in 0..count {
        let accel = accel_bytes(lists.list_at(i));
        end = put_plain(&accel, dst, end);
    }
    end
}

fn put_marks<E: Endian, T: WordStore>(dfa: &DFA<T>, dst: &mut [u8], at: usize) -> usize
    requires { at + 68 + 8 * length dfa.now.accels ≤ length dst.old }
    ensures len { length dst.new ≡ length dst.old }
    ensures place { result ≡ at + 68 + 8 * length dfa.now.accels }
    ensures put { IsPut (marks_text E.order (marks_of dfa.now)) dst.old dst.new at result }
{
    let special = put_special::<E>(dfa.special(), dst, at);
    let accels = put_accels::<E, DFA<T>>(dfa, dst, special);
    put_quit::<E>(dfa.quitset(), dst, accels)
}

/// The length of an image in bytes.
pub fn image_len<T: WordStore>(dfa: &DFA<T>) -> usize
    ensures value { result ≡ image_len dfa.now }
    ensures text { (order : Order) → length (text order dfa.now) ≡ result }
{
    let words = dfa.words().len() + dfa.start_ids().len();
    let lists = dfa.slices().len() + dfa.pattern_ids().len();
    668 + 4 * (words + lists) + 8 * dfa.accel_len()
}

/// Writes an image at the front of `dst` and returns its length.
pub fn put_image<E: Endian, T: WordStore>(dfa: &DFA<T>, dst: &mut [u8]) -> usize
    requires { image_len dfa.now ≤ length dst.old }
    ensures len { length dst.new ≡ length dst.old }
    ensures place { result ≡ image_len dfa.now }
    ensures put { IsPut (text E.order dfa.now) dst.old dst.new 0 result }
{
    let head = put_head::<E>(&LABEL, dfa.flags(), dst, 0);
    let rows = put_rows::<E, T>(dfa, dst, head);
    let starts = put_start_table::<E, T>(dfa, dst, rows);
    let lists = put_pattern_lists::<E, T>(dfa, dst, starts);
    put_marks::<E, T>(dfa, dst, lists)
}
