//! Minimizes dense tables.
//!
//! [`minimize`] merges the states of a dense table that behave alike, by the refinement of `rx_refine`. Its contract
//! (`IsMinimized`): on every word the table reports what it reported before, and for any two states that are left some
//! word makes them report differently. So if every state is reached, no table that reports the same has fewer states.
//! [`Minimizer`] does the same in two steps: it finds the states that behave alike, and then merges them.
//!
//! The steps: states get numbers for what they report (`labels`), the refinement finds the blocks of states that behave
//! alike (`blocks`), blocks are numbered in the order of their first states (`numbering`), and the table keeps the
//! first state of each block (`kinds` and `DFA::keep_states`). So dead and quit keep their places, and the states that
//! are left keep their order. All memory is taken before the first change.
#![tactic(auto)]

mod blocks;
mod kinds;
mod labels;
mod minimize_rows;
mod numbering;

pub use minimize_rows::{Minimizer, minimize};
