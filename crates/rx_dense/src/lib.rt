//! Dense tables in memory: a column for each class of bytes, so that a byte takes one load to the next row.
//!
//! Start with [`DFA`], the table, and its `Automaton` calls. It keeps its words in a [`WordStore`], owned or
//! borrowed. The calls of [`OwnedDFA`] are those by which a builder makes one.
//!
//! The contract: a table is seen as a `Layout`, a record of lists and numbers (`specs/Layouts.antt`), of which one
//! function makes the table of the definitions. A call changes the named part of the layout, and nothing else.
//! [`examples`] has calls whose results the definitions compute.
#![tactic(auto)]

mod accel;
mod dfa;
mod errors;
pub mod examples;
mod flags;
mod special;
mod store;

pub use accel::{Accel, Accels, IterAccels};
pub use dfa::parts::Parts;
pub use dfa::starts::StartStateIter;
pub use dfa::states::{State, StateIter, StateSparseTransitionIter, StateTransitionIter};
pub use dfa::{DFA, OwnedDFA};
pub use errors::{AddError, PatternMapError};
pub use flags::Flags;
pub use special::Special;
pub use store::WordStore;
