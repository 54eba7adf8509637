//! Whole matches by two tables: a forward table gives a match's end, a reverse table its start.
//!
//! A [`Regex`] holds both. [`Regex::try_search`] returns the leftmost match of an input, and [`Regex::find_iter`] all
//! matches one after another ([`FindMatches`]).
//!
//! The contract: whatever the two tables are, a search returns what the half searches of the definitions return of
//! them, joined. The iterator yields each match once and ends (`specs/Matches.antt`).
#![tactic(auto)]

mod beside;
mod find_matches;
mod regex;

pub use find_matches::FindMatches;
pub use regex::Regex;
