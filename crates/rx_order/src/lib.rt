//! The order of a table's rows, and calls that move rows.
//!
//! Most checks of a search ask only whether a state is special: dead, quit, a match state, accelerated or a start
//! state. So the rows of a built table lie in an order in which each of these kinds is a range of ids
//! (`specs/RowOrder.antt`). [`shuffle`] moves the rows into that order once the match states are known. [`accelerate`]
//! finds the states that few bytes leave, from which searches skip, and moves the rows into their order again.
//!
//! The contract: after either call the table is the same with its rows at other places (`IsPermuted`).
//! [`patterns_of_row`] returns the patterns of a match state.
//!
//! Rows move by exchanges of two. An exchange makes transitions wrong: they name a place, and another row lies there
//! after it. So a [`Remapper`] records where the rows went and renames all transitions once, at the end. A table that
//! it can rename is [`Remappable`]. After any exchanges and the renaming the table is the same with its rows at other
//! places (`IsRenamed` of `specs/Renaming.antt`).
#![tactic(auto)]

mod accelerate_rows;
mod kinds;
pub mod laws;
mod order;
mod patterns;
mod places;
mod ranks;
mod remappable;
mod remapper;
mod shuffle_rows;
mod skips;

pub use accelerate_rows::accelerate;
pub use kinds::{kind, start_rows};
pub use order::special;
pub use patterns::{patterns_of_row, patterns_of_rows};
pub use remapper::{Remappable, Remapper};
pub use shuffle_rows::shuffle;
