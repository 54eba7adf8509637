//! Builds sparse tables.
//!
//! [`SparseBuild`] has calls that build by default settings: `DFA::<Vec<u8>>::new_many(alloc, &exprs)`. [`BuildSparse`]
//! adds calls to a dense builder that build a sparse table by its settings. Either way a dense table is built and made
//! sparse.
//!
//! The contract: the table is the sparse form of a built dense table (`specs/Built.antt`). An error names a cause that
//! holds; there is one more cause than for dense tables: the states have more bytes than there are ids. [`laws`]: such
//! a table answers as the dense one does, with as many states. [`row_lengths`]: how long its states are, by the states
//! of the build.
#![tactic(auto)]

mod builder;
pub mod images;
pub mod laws;
pub mod row_lengths;
mod sparse_build;

pub use builder::BuildSparse;
pub use sparse_build::SparseBuild;
