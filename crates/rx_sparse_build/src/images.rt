//! Images of built tables are read again.
//!
//! `IsWhole` of `rx_dense_image` and of `rx_sparse_image` states which layouts are read as they were written. The
//! functions here have empty bodies, and their clauses are laws: the layout of a built table is such a one. [`dense`]
//! has the laws of dense tables, [`sparse`] those of the sparse tables that are made of them.
pub mod dense;
pub mod sparse;
