//! Thompson's construction: from expressions to the rows of an NFA.

mod build_error;
mod classes;
mod compiler;
mod config;
mod edge;
mod nfa;
mod rows;
mod starts;

pub use build_error::BuildError;
pub use compiler::Compiler;
pub use config::Config;
pub use nfa::{NFA, Row};
