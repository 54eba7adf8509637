//! Images: tables as bytes, in either byte order, written and read again.
//!
//! [`DenseWrite`] and [`SparseWrite`] write the image of one table. [`DenseRead`] and [`SparseRead`] read one, in
//! whichever byte order it is; a sparse table that is read borrows the image. Writers write exactly the `text` of the
//! table's form, and readers return exactly what its `reads` says (`specs/Images.antt` of `rx_dense_image` and of
//! `rx_sparse_image`). A table that is read is sound, so it can be searched at once, whoever wrote the image.
//!
//! # One image for both tables of a pair
//!
//! [`dense_pair`] and [`sparse_pair`] write both tables as one image. [`read_pair`] reads such an image, whoever wrote
//! it. The [`Tables`] that it returns are searched without the expressions that they were built of: build once, ship
//! one file, search anywhere.
//!
//! An image is a head of 40 bytes, the image of the forward table and the image of the reverse table, all in one byte
//! order. The head has the label `rust-regex-automata-pair`, the byte order, version 3 and the form. The two images are
//! those that [`DenseWrite`] or [`SparseWrite`] write.
//!
//! The contract: the writers return the bytes of two layouts (`text` in `specs/Pairs.antt`). The reader returns what
//! the definition `reads` says of the bytes: the two layouts that they spell, or the kind of the first test that fails.
//! Both tables are sound, and can be written and read again ([`laws`]).
#![tactic(auto)]

mod dense;
mod head;
pub mod laws;
mod read;
mod sparse;
mod tables;
mod write;

pub use dense::{DenseRead, DenseWrite};
pub use read::read_pair;
pub use sparse::{SparseRead, SparseWrite};
pub use tables::Tables;
pub use write::{dense_pair, sparse_pair};
