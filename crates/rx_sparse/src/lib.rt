//! Sparse tables: each state has ranges of byte classes and the state to which each range leads.
//!
//! Start with [`DFA`], the table, and its `Automaton` calls. It keeps its bytes in a [`ByteStore`], owned or borrowed,
//! in either byte order. [`State`] is a decoded state. [`ToSparse`] makes a sparse table of a dense one.
//!
//! The contract: a table is seen as a `Layout` with the order of its bytes (`specs/Layouts.antt`), and one function
//! makes the table of the definitions of it. `specs/Rows.antt` defines the bytes of a state, and `specs/Sparse.antt`
//! the sparse form of a dense table.
#![tactic(auto)]

mod dfa;
mod laws;
mod offsets;
mod parts;
mod ranges;
mod rows;
mod state;
mod store;
mod to_sparse;

pub use dfa::DFA;
pub use laws::{a_sparse_table_is_the_dense_one, rows_are_read_again};
pub use parts::Parts;
pub use ranges::ClassRange;
pub use state::State;
pub use store::ByteStore;
pub use to_sparse::ToSparse;
