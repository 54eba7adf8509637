//! The tables of a pair image.

use rx_dense::OwnedDFA;
use rx_sparse::DFA;

/// The two tables of a pair, the forward one first. Both have the same form.
#[derive(Drop)]
pub enum Tables<'a> {
    /// Dense tables. They own a copy of the image's content.
    Dense(OwnedDFA, OwnedDFA),
    /// Sparse tables. They borrow the image and are searched in place, in the image's byte order.
    Sparse(DFA<&'a [u8]>, DFA<&'a [u8]>),
}
