//! The subset construction: powerset states of an NFA and their steps.
//!
//! A powerset state is a list of NFA states (rows), the preferred first, with what is known of the byte read last and
//! the patterns that matched before it. A table is built by stepping such states until no new one appears. A search can
//! also step them along a haystack.
//!
//! The contract: [`PowerState::start`] and [`PowerState::step`] return exactly the states of the definitions, for all
//! assertions, both match kinds and both directions. Two states are equal exactly if their three parts are. Start with
//! [`PowerState`].
#![tactic(auto)]

mod closure;
pub mod laws;
mod state;

pub use state::PowerState;
