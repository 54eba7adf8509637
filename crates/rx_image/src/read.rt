//! Reads pair images.

ghost use Rattle.std.specs.Prelude.{◌≡◌, ◌≤◌, ◌==◌, IfOk, drop, length};
ghost use Rattle.rx_wire.specs.Kinds.{Gives};
ghost use Rattle.rx_dense.specs.Facts.{IsSoundLayout};
ghost use Rattle.rx_sparse.specs.Facts.{IsSoundLayout as IsSoundSparse};
ghost use Rattle.rx_dense_image.specs.Images.{IsWhole};
ghost use Rattle.rx_sparse_image.specs.Tested.{IsWhole as IsWholeSparse};
ghost use Rattle.rx_image.specs.Pairs.{AreWhole, HaveSamePatterns};
ghost use Rattle.rx_image.specs.Pairs.{dense_at, dense_pair_at, pair_at, reads, sparse_at, sparse_pair_at};
ghost use Rattle.rx_image.specs.Tables.{AreSound, pair_of};

use crate::head::{is_same_order, split_head};
use crate::{DenseRead, SparseRead, Tables};
use rx_dense::OwnedDFA;
use rx_dense_image::split_dense_head;
use rx_search::Automaton;
use rx_sparse::DFA;
use rx_spec::Form;
use rx_wire::{DeserializeError, Order};
use std::alloc::Global;

/// Reads the pair of tables that `slice` begins with and returns it with the length of its image in bytes. The bytes
/// after the image aren't read.
///
/// The image may be of either form and in either byte order. Dense tables are copied from it. Sparse tables borrow it
/// and take memory only while they are tested. Both tables are sound, so they can be searched at once, and they can be
/// written and read again.
///
/// # Errors
///
/// The kind of the first test that fails, or `Memory` if memory runs out. The tests, in order:
///
/// | what is tested | kind |
/// |---|---|
/// | the label, with its NUL and padding | `Generic` if `slice` ends in it or no NUL comes, else `LabelMismatch` |
/// | the word of the byte order: 0xFEFF | `BufferTooSmall`, `EndianMismatch` |
/// | the version: 3 | `BufferTooSmall`, `VersionMismatch` |
/// | the form: 0 or 1 | `BufferTooSmall`, `Generic` |
/// | the image of the forward table | that of `from_bytes` of the form |
/// | the byte order of that image: the pair's | `Generic` |
/// | the image of the reverse table, and its byte order | likewise |
/// | both have the same number of patterns | `Generic` |
#[tactic(auto, unfolding(crate::specs::Pairs::reads))]
pub fn read_pair(alloc: Global, slice: &[u8]) -> Result<(Tables<'_>, usize), DeserializeError>
    ensures read { Gives (λ x. (pair_of x.0, x.1)) result (reads slice.now) }
    ensures whole { IfOk result (λ x. AreWhole (pair_of x.0) × HaveSamePatterns (pair_of x.0)) }
    ensures sound { IfOk result (λ x. AreSound x.0) }
{
    let ((order, form), rest) = split_head(slice)?;
    let (tables, rest) = split_tables(alloc, order, form, rest)?;
    Ok((tables, slice.len().saturating_sub(rest.len())))
}

/// Reads both tables, which must have the byte order `order`. Returns the bytes after them too.
fn split_tables(
    alloc: Global,
    order: Order,
    form: Form,
    bytes: &[u8],
) -> Result<(Tables<'_>, &[u8]), DeserializeError>
    ensures read { Gives (λ x. (pair_of x.0, x.1.now)) result (pair_at order form bytes.now) }
    ensures whole { IfOk result (λ x. AreWhole (pair_of x.0) × HaveSamePatterns (pair_of x.0)) }
    ensures sound { IfOk result (λ x. AreSound x.0) }
{
    match form {
        Form::Dense => split_dense_pair(alloc, order, bytes),
        Form::Sparse => split_sparse_pair(alloc, order, bytes),
    }
}

/// Reads two dense tables in a byte order, the forward one first. They must have the same number of patterns.
#[tactic(auto, unfolding(crate::specs::Pairs::dense_pair_at))]
fn split_dense_pair(
    alloc: Global,
    order: Order,
    bytes: &[u8],
) -> Result<(Tables<'_>, &[u8]), DeserializeError>
    ensures read { Gives (λ x. (pair_of x.0, x.1.now)) result (dense_pair_at order bytes.now) }
    ensures whole { IfOk result (λ x. AreWhole (pair_of x.0) × HaveSamePatterns (pair_of x.0)) }
    ensures sound { IfOk result (λ x. AreSound x.0) }
{
    let (forward, rest) = split_dense(alloc, order, bytes)?;
    let (reverse, rest) = split_dense(alloc, order, rest)?;
    if !have_same_patterns(&forward, &reverse) {
        return Err(DeserializeError::generic("tables of different numbers of patterns"));
    }
    Ok((Tables::Dense(forward, reverse), rest))
}

/// Reads two sparse tables in a byte order, the forward one first. They must have the same number of patterns.
#[tactic(auto, unfolding(crate::specs::Pairs::sparse_pair_at))]
fn split_sparse_pair(
    alloc: Global,
    order: Order,
    bytes: &[u8],
) -> Result<(Tables<'_>, &[u8]), DeserializeError>
    ensures read { Gives (λ x. (pair_of x.0, x.1.now)) result (sparse_pair_at order bytes.now) }
    ensures whole { IfOk result (λ x. AreWhole (pair_of x.0) × HaveSamePatterns (pair_of x.0)) }
    ensures sound { IfOk result (λ x. AreSound x.0) }
{
    let (forward, rest) = split_sparse(alloc, order, bytes)?;
    let (reverse, rest) = split_sparse(alloc, order, rest)?;
    if !have_same_patterns(&forward, &reverse) {
        return Err(DeserializeError::generic("tables of different numbers of patterns"));
    }
    Ok((Tables::Sparse(forward, reverse), rest))
}

/// Reads a dense table whose image must be in a byte order. Returns the bytes after the image too.
#[tactic(auto, unfolding(crate::specs::Pairs::dense_at))]
fn split_dense(
    alloc: Global,
    order: Order,
    bytes: &[u8],
) -> Result<(OwnedDFA, &[u8]), DeserializeError>
    ensures read { Gives (λ x. (x.0, x.1.now)) result (dense_at order bytes.now) }
    ensures whole { IfOk result (λ x. IsWhole x.0) }
    ensures sound { IfOk result (λ x. IsSoundLayout x.0) }
{
    let (table, len) = OwnedDFA::from_bytes(alloc, bytes)?;
    let ((_, own), _) = split_dense_head(bytes)?;
    if !is_same_order(own, order) {
        return Err(DeserializeError::generic("a table in another order than the pair"));
    }
    Ok((table, after(len, bytes)))
}

/// Reads a sparse table whose image must be in a byte order. Returns the bytes after the image too.
#[tactic(auto, unfolding(crate::specs::Pairs::sparse_at))]
fn split_sparse(
    alloc: Global,
    order: Order,
    bytes: &[u8],
) -> Result<(DFA<&[u8]>, &[u8]), DeserializeError>
    ensures read { Gives (λ x. (x.0, x.1.now)) result (sparse_at order bytes.now) }
    ensures whole { IfOk result (λ x. IsWholeSparse x.0.layout) }
    ensures sound { IfOk result (λ x. IsSoundSparse x.0.layout) }
{
    let (table, len) = DFA::<&[u8]>::from_bytes(alloc, bytes)?;
    if !is_same_order(table.order(), order) {
        return Err(DeserializeError::generic("a table in another order than the pair"));
    }
    Ok((table, after(len, bytes)))
}

/// The bytes after the first `len`.
fn after(len: usize, bytes: &[u8]) -> &[u8]
    requires { len ≤ length bytes.now }
    ensures { result.now ≡ drop len bytes.now }
{
    &bytes[len..]
}

/// Whether two tables have the same number of patterns.
fn have_same_patterns<A: Automaton>(forward: &A, reverse: &A) -> bool
    ensures { result ≡ ((A.table forward.now).pattern_len == (A.table reverse.now).pattern_len) }
{
    forward.pattern_len() == reverse.pattern_len()
}
