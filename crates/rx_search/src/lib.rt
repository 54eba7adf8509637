//! Searches over any table.
//!
//! An [`Automaton`] is a finite table of rows that bytes lead from one to another. Its meaning is one table of
//! the definitions, with an id for each row; whether it is kept dense, sparse or in another form, the searches
//! don't ask. Start with [`Automaton`], and then with its `try_search_fwd`.
//!
//! The contract: on a sound table each search answers exactly what the definitions say of that table.
#![tactic(auto)]

mod automaton;
mod cursor;
mod half;
mod overlapping;
mod parts;
mod skip;
mod splits;
mod start;
mod walk;
mod which;

pub use automaton::Automaton;
pub use cursor::Cursor;
pub use half::{
    find_fwd, find_fwd_counted, find_fwd_from, find_rev, find_rev_counted, find_rev_from,
};
pub use overlapping::{OverlappingState, find_overlapping_fwd, find_overlapping_rev};
pub use parts::{Passed, pass_on};
pub use skip::first_needle;
pub use splits::{skip_splits_fwd, skip_splits_rev};
pub use start::StartError;
