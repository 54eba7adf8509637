//! Images of sparse tables.

mod read;
mod write;

pub use read::SparseRead;
pub use write::SparseWrite;
