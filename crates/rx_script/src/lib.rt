//! Scripts: a plan, expressions and an input, as lines of words.
//!
//! `specs/Grammar.antt` defines what a script is, without a reader. `specs/Reading.antt` defines the reading function
//! with the first fault of a text, and [`laws`] prove that the two agree. [`read_script`] reads a script; [`number`]
//! and [`mode`] read single words.
//!
//! A line `plan` sets how tables are built and searched. Of its words `bytes` and `pair` at most one may occur: `bytes`
//! has each table written as an image and read back before a search, `pair` has both written as one image and read
//! back.
#![tactic(auto)]

mod expression;
mod fault;
pub mod laws;
mod names;
mod pieces;
mod plan_words;
mod script;
mod tokens;

pub use fault::{BadKind, ScriptFault};
pub use script::{Exprs, Hay, Script, ScriptInput, read_script};
pub use tokens::{mode, number};
