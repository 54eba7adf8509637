//! Images of dense tables.

mod read;
mod write;

pub use read::DenseRead;
pub use write::DenseWrite;
