//! Makes sparse tables of dense ones.

ghost use Rattle.std.specs.Prelude.{◌≡◌, ◌<◌, ◌≤◌, ◌+◌, ◌^◌, ◌++◌, [], ◌∷◌, IfOk, IfErr, OnOk, length};
ghost use Rattle.rx_spec.specs.Causes.{max_id};
ghost use Rattle.rx_spec.specs.Tables.{AreSame};
ghost use Rattle.rx_base.specs.Search.{mode_of};
ghost use Rattle.rx_wire.specs.declared.order.Order.TheVariants.{Little};
ghost use Rattle.rx_search.specs.Starts.{IsId};
ghost use Rattle.rx_dense.specs.Facts.{IsSoundLayout as IsSoundDense};
ghost use Rattle.rx_dense.specs.Layouts.{AreLists, AreStarts, Layout as Dense, ids_of, table_of as dense_table};
ghost use Rattle.rx_dense.specs.Layouts.{universal_id};
ghost use Rattle.rx_dense.specs.Builder.{renamed_id};
ghost use Rattle.rx_sparse.specs.Facts.{IsSoundLayout};
ghost use Rattle.rx_sparse.specs.Layouts.{table_of};
ghost use Rattle.rx_sparse.specs.Reading.{AreOffsets, HaveOffsets, offset_in, parts_of};
ghost use Rattle.rx_sparse.specs.Rows.{next_ids, row_len, row_text, rows_text, words_text};
ghost use Rattle.rx_sparse.specs.Sparse.{AreSpecialRows, IsTooLong, little_sparse_of, offsets_of, renamed_special};
ghost use Rattle.rx_sparse.specs.Sparse.{patterns_of_id, renamed_row, row_of_dense, sparse_len, sparse_of};
ghost use Rattle.rx_sparse.specs.Sparse.{universal_offset};

use crate::offsets::Offsets;
use crate::ranges::{ClassRange, read_ranges};
use crate::rows::{add_word, read_row};
use crate::{DFA, Parts};
use rx_base::{Anchored, Start, StateID};
use rx_dense::{DFA as DenseDFA, Special, State, WordStore};
use rx_expr::build_error::{BuildError, BuildErrorKind};
use rx_search::Automaton;
use rx_wire::Order;
use std::alloc::{AllocError, Global};

/// Makes a sparse table of a dense one.
pub trait ToSparse {
    /// The layout of the dense table.
    ghost layout: { Self → Dense };

    /// The sparse table with the same states in the same order, in little endian.
    ///
    /// # Errors
    ///
    /// `TooManyStates` exactly if the states would have more bytes than there are ids, or `Memory` if memory runs out.
    fn to_sparse(&self, alloc: Global) -> Result<DFA<Vec<u8>>, BuildError>
        requires sound { IsSoundDense (layout self.now) }
        requires special { AreSpecialRows (layout self.now) }
        ensures table { IfOk result (λ dfa. dfa ≡ little_sparse_of (layout self.now)) }
        // So it has the same rows by their numbers, and a walk of it reaches the row of the same number on every word.
        ensures same { IfOk result (λ dfa. AreSame (dense_table (layout self.now)) (table_of dfa.layout)) }
        ensures sound { IfOk result (λ dfa. IsSoundLayout dfa.layout) }
        ensures fits { OnOk result (sparse_len (layout self.now) ≤ max_id) }
        ensures refused { IfErr result (λ error. IsTooLong (sparse_len (layout self.now)) error.kind) };
}

impl<T: WordStore> ToSparse for DenseDFA<T> {
    ghost layout = { λ dfa. dfa };

    fn to_sparse(&self, alloc: Global) -> Result<DFA<Vec<u8>>, BuildError> {
        let mut ranges = Vec::with_capacity(alloc, 256)?;
        let (offsets, len) = row_offsets(alloc, self, &mut ranges)?;
        let rows = row_bytes(alloc, self, &offsets, len, &mut ranges)?;
        let starts = start_bytes(alloc, self, &offsets)?;
        Ok(DFA::from_parts(parts(self, &offsets), rows, starts))
    }
}

/// The offset of each row, and the length of all rows in bytes.
fn row_offsets<T: WordStore>(
    alloc: Global,
    dfa: &DenseDFA<T>,
    ranges: &mut Vec<ClassRange>,
) -> Result<(Offsets, usize), BuildError>
    requires { IsSoundDense dfa.now }
    ensures offsets { IfOk result (λ x. AreOffsets dfa.now x.0) }
    ensures len { IfOk result (λ x. x.1 ≡ sparse_len dfa.now) }
    ensures fits { OnOk result (sparse_len dfa.now ≤ max_id) }
    ensures refused { IfErr result (λ error. IsTooLong (sparse_len dfa.now) error.kind) }
{
    let mut ids = Vec::with_capacity(alloc, dfa.state_len())?;
    let mut len = 0;
    for row in dfa.states() {
        len = add_offset(dfa, &row, len, ranges, &mut ids)?;
    }
    Ok((Offsets::new(ids, dfa.stride2()), len))
}

/// Adds the offset of a row and returns that of the next one.
fn add_offset<T: WordStore>(
    dfa: &DenseDFA<T>,
    row: &State<'_>,
    at: usize,
    ranges: &mut Vec<ClassRange>,
    ids: &mut Vec<u32>,
) -> Result<usize, BuildError>
    requires sound { IsSoundDense dfa.now }
    requires is_id { IsId (ids_of dfa.now) row.now.id }
    requires few { length row.now.next_ids ≤ 257 }
    requires at { at ≤ max_id }
    ensures end { IfOk result (λ end. end ≡ at + row_len (row_of_dense dfa.now row.now)) }
    ensures ids { IfOk result (λ _. ids.new.items ≡ ids.old.items ++ at ∷ []) }
    ensures fits { IfOk result (λ end. end ≤ max_id) }
    ensures refused { IfErr result (λ error. IsTooLong (at + row_len (row_of_dense dfa.now row.now)) error.kind) }
{
    let eoi = read_ranges(row, ranges)?;
    let end = at + read_row(dfa, row.id(), ranges.as_slice(), eoi).len();
    if end > StateID::MAX.as_usize() {
        return Err(BuildError {
            kind: BuildErrorKind::TooManyStates,
        });
    }
    match ids.push(at as u32) {
        Ok(()) => Ok(end),
        Err(error) => Err(AllocError::from(error).into()),
    }
}

/// The bytes of all rows, of the length `len`.
fn row_bytes<T: WordStore>(
    alloc: Global,
    dfa: &DenseDFA<T>,
    offsets: &Offsets,
    len: usize,
    ranges: &mut Vec<ClassRange>,
) -> Result<Vec<u8>, AllocError>
    requires sound { IsSoundDense dfa.now }
    requires offsets { AreOffsets dfa.now offsets.now }
    ensures { IfOk result (λ bytes. bytes.items ≡ rows_text Little (sparse_of dfa.now).rows) }
{
    let mut bytes = Vec::with_capacity(alloc, len)?;
    for row in dfa.states() {
        add_row(dfa, &row, offsets, ranges, &mut bytes)?;
    }
    Ok(bytes)
}

/// Adds the bytes of a row.
fn add_row<T: WordStore>(
    dfa: &DenseDFA<T>,
    row: &State<'_>,
    offsets: &Offsets,
    ranges: &mut Vec<ClassRange>,
    bytes: &mut Vec<u8>,
) -> Result<(), AllocError>
    requires sound { IsSoundDense dfa.now }
    requires is_id { IsId (ids_of dfa.now) row.now.id }
    requires few { length row.now.next_ids ≤ 257 }
    requires few_patterns { length (patterns_of_id dfa.now row.now.id) < 2 ^ 32 }
    requires ids { HaveOffsets offsets.now (next_ids (row_of_dense dfa.now row.now)) }
    ensures { IfOk result (λ _. bytes.new.items
        ≡ bytes.old.items ++ row_text Little (renamed_row (offset_in offsets.now) (row_of_dense dfa.now row.now))) }
{
    let eoi = read_ranges(row, ranges)?;
    read_row(dfa, row.id(), ranges.as_slice(), eoi).add_to(offsets, bytes)
}

/// The bytes of the start entries.
fn start_bytes<T: WordStore>(
    alloc: Global,
    dfa: &DenseDFA<T>,
    offsets: &Offsets,
) -> Result<Vec<u8>, AllocError>
    requires { AreOffsets dfa.now offsets.now }
    ensures bytes { IfOk result (λ bytes. bytes.items ≡ words_text Little (sparse_of dfa.now).starts) }
    ensures starts { IfOk result (λ _. AreStarts dfa.now) }
{
    let ids = dfa.start_ids();
    let mut bytes = Vec::with_capacity(alloc, 4 * ids.len())?;
    for id in ids {
        add_word(offsets.offset(*id), &mut bytes)?;
    }
    Ok(bytes)
}

/// All parts but the bytes.
fn parts<T: WordStore>(dfa: &DenseDFA<T>, offsets: &Offsets) -> Parts
    requires offsets { AreOffsets dfa.now offsets.now }
    requires special { AreSpecialRows dfa.now }
    requires starts { AreStarts dfa.now }
    ensures parts { result ≡ parts_of dfa.now }
    ensures lists { AreLists dfa.now }
{
    Parts {
        order: Order::Little,
        flags: *dfa.flags(),
        classes: *dfa.byte_classes(),
        pattern_len: dfa.pattern_len(),
        state_len: dfa.state_len(),
        start_kind: dfa.start_kind(),
        contexts: contexts(dfa),
        start_pattern_len: dfa.start_pattern_len(),
        universal_unanchored: universal(dfa, Anchored::No, offsets),
        universal_anchored: universal(dfa, Anchored::Yes, offsets),
        special: special(dfa, offsets),
        quitset: *dfa.quitset(),
    }
}

/// The start contexts of all bytes.
fn contexts<T: WordStore>(dfa: &DenseDFA<T>) -> [Start; 256]
    requires { AreStarts dfa.now }
    ensures { result ≡ dfa.now.contexts }
{
    let mut contexts = [Start::NonWordByte; 256];
    for byte in 0..256 {
        contexts[byte] = dfa.start_context(byte as u8);
    }
    contexts
}

/// The offset of a row of a dense table.
fn offset<T: WordStore>(dfa: &DenseDFA<T>, id: StateID, offsets: &Offsets) -> StateID
    requires offsets { AreOffsets dfa.now offsets.now }
    requires is_id { IsId (ids_of dfa.now) id }
    ensures { result ≡ renamed_id dfa.now (offsets_of dfa.now) id }
{
    StateID::must(offsets.offset(id.as_u32()) as usize)
}

/// The universal start of a mode.
fn universal<T: WordStore>(dfa: &DenseDFA<T>, mode: Anchored, offsets: &Offsets) -> Option<StateID>
    requires { AreOffsets dfa.now offsets.now }
    ensures { result ≡ universal_offset dfa.now (universal_id dfa.now (mode_of mode)) }
{
    match dfa.universal_start_state(mode) {
        None => None,
        Some(id) => Some(offset(dfa, id, offsets)),
    }
}

/// The special rows.
fn special<T: WordStore>(dfa: &DenseDFA<T>, offsets: &Offsets) -> Special
    requires offsets { AreOffsets dfa.now offsets.now }
    requires special { AreSpecialRows dfa.now }
    ensures { result ≡ renamed_special (renamed_id dfa.now (offsets_of dfa.now)) dfa.now.special }
{
    let special = dfa.special();
    Special {
        max: offset(dfa, special.max, offsets),
        quit: offset(dfa, special.quit, offsets),
        min_match: offset(dfa, special.min_match, offsets),
        max_match: offset(dfa, special.max_match, offsets),
        min_accel: offset(dfa, special.min_accel, offsets),
        max_accel: offset(dfa, special.max_accel, offsets),
        min_start: offset(dfa, special.min_start, offsets),
        max_start: offset(dfa, special.max_start, offsets),
    }
}
