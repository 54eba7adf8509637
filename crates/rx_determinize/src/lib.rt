//! Determinizes an NFA into the rows of a dense table.
//!
//! [`determinize`] steps each reached state by every unit and adds a state to the table for each new one. Its contract
//! (`specs/Building.antt`): the table's states are exactly the reached states of the build, dead and quit, in the order
//! in which they were found, or the error names a cause that holds.
#![tactic(auto)]

mod construction;
mod matches;
mod models;
mod rows;
mod settled;
mod starts;
mod states;

pub use rows::determinize;
pub use settled::Settled;
