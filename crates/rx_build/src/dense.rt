//! Dense tables: their builder and its settings.

mod builder;
mod classes;
mod config;
mod dense_build;

pub use builder::Builder;
pub use config::{Config, QuitRefused};
pub use dense_build::DenseBuild;
pub use rx_dense::{DFA, OwnedDFA};
