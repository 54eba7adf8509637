//! The program as a function: from the words of a command line and the bytes of a source to the bytes written and the
//! status.
//!
//! [`run`] is the whole program. Its contract ties what is written to the words and the bytes read by the definition
//! `Replies` of `specs/Replies.antt`, which has a file for each command. Scripts and their reader are in `rx_script`,
//! whose public names are exported here.
#![tactic(auto)]

mod check;
mod command;
mod each;
mod equal;
mod find;
mod generate;
mod image;
pub mod laws;
mod lines;
mod program;
mod reply;
mod scan;
mod scripts;
mod search;
mod seek;
mod transfer;
mod words;

pub use program::run;
pub use rx_script::{BadKind, Exprs, Hay, Script, ScriptFault, ScriptInput, read_script};
pub use words::Words;
