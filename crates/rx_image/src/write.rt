//! Writes pair images.

ghost use Rattle.std.specs.Prelude.{◌≡◌, ◌+◌, IfOk, length};
ghost use Rattle.rx_dense_image.specs.Images as dense;
ghost use Rattle.rx_sparse_image.specs.Images as sparse;
ghost use Rattle.rx_image.specs.Pairs.{Pair, head_text, text};

use crate::head::{HEAD_LEN, write_head};
use crate::{DenseWrite, SparseWrite};
use rx_dense::OwnedDFA;
use rx_sparse::{ByteStore, DFA};
use rx_spec::Form;
use rx_wire::{BE, LE, Order};
use std::alloc::{AllocError, Global};

/// Writes two dense tables as one image in a byte order: a head of 40 bytes, the image of the forward table and that of
/// the reverse table. Requires that both have the same number of patterns.
///
/// # Errors
///
/// `AllocError` if memory for the image runs out.
#[tactic(auto, unfolding(crate::specs::Pairs::text))]
pub fn dense_pair(
    alloc: Global,
    order: Order,
    forward: &OwnedDFA,
    reverse: &OwnedDFA,
) -> Result<Vec<u8>, AllocError>
    requires { forward.now.pattern_len ≡ reverse.now.pattern_len }
    ensures { IfOk result (λ bytes. bytes.items ≡ text order (Pair.Dense forward.now reverse.now)) }
{
    let len = forward.write_to_len();
    let mut bytes = image_room(alloc, len, reverse.write_to_len())?;
    let (head, tables) = bytes.as_mut_slice().split_at_mut(HEAD_LEN);
    let (first, second) = tables.split_at_mut(len);
    put_head(order, Form::Dense, head);
    fill_dense(order, forward, first);
    fill_dense(order, reverse, second);
    Ok(bytes)
}

/// Writes two sparse tables as one image in a byte order: a head of 40 bytes, the image of the forward table and that
/// of the reverse table. Requires that both have the same number of patterns. The tables may be in another byte order
/// than the image.
///
/// # Errors
///
/// `AllocError` if memory for the image runs out.
#[tactic(auto, unfolding(crate::specs::Pairs::text))]
pub fn sparse_pair<T: ByteStore>(
    alloc: Global,
    order: Order,
    forward: &DFA<T>,
    reverse: &DFA<T>,
) -> Result<Vec<u8>, AllocError>
    requires { forward.now.layout.pattern_len ≡ reverse.now.layout.pattern_len }
    ensures { IfOk result (λ bytes. bytes.items ≡ text order (Pair.Sparse forward.now reverse.now)) }
{
    let len = forward.write_to_len();
    let mut bytes = image_room(alloc, len, reverse.write_to_len())?;
    let (head, tables) = bytes.as_mut_slice().split_at_mut(HEAD_LEN);
    let (first, second) = tables.split_at_mut(len);
    put_head(order, Form::Sparse, head);
    fill_sparse(order, forward, first);
    fill_sparse(order, reverse, second);
    Ok(bytes)
}

/// Bytes for the head and for two images of these lengths, all 0.
fn image_room(alloc: Global, forward: usize, reverse: usize) -> Result<Vec<u8>, AllocError>
    ensures { IfOk result (λ bytes. length bytes.items ≡ 40 + (forward + reverse)) }
{
    let tables = forward.saturating_add(reverse);
    vec![in alloc; 0; HEAD_LEN.saturating_add(tables)]
}

/// Fills `dst`, of 40 bytes, with the head.
fn put_head(order: Order, form: Form, dst: &mut [u8])
    requires { length dst.old ≡ 40 }
    ensures { dst.new ≡ head_text order form }
{
    match order {
        Order::Little => write_head::<LE>(form, dst),
        Order::Big => write_head::<BE>(form, dst),
    }
}

/// Fills `dst` with the image of a dense table.
fn fill_dense(order: Order, dfa: &OwnedDFA, dst: &mut [u8])
    requires { length dst.old ≡ length (dense.text order dfa.now) }
    ensures { dst.new ≡ dense.text order dfa.now }
{
    let written = match order {
        Order::Little => dfa.write_to_little_endian(dst),
        Order::Big => dfa.write_to_big_endian(dst),
    };
    prove!(written.is_ok());
}

/// Fills `dst` with the image of a sparse table.
fn fill_sparse<T: ByteStore>(order: Order, dfa: &DFA<T>, dst: &mut [u8])
    requires { length dst.old ≡ length (sparse.text order dfa.now.layout) }
    ensures { dst.new ≡ sparse.text order dfa.now.layout }
{
    let written = match order {
        Order::Little => dfa.write_to_little_endian(dst),
        Order::Big => dfa.write_to_big_endian(dst),
    };
    prove!(written.is_ok());
}
