//! Steps powerset states, for a construction that steps each state by every unit.
//!
//! A construction reaches the same state many times and keeps it once. So states are kept as *keys*, lists of numbers
//! that are compared and hashed as they are. A [`Stepper`] steps the state of one key on all columns of a table: start
//! with [`Stepper::begin`] and [`Stepper::next`].
//!
//! Most states of an unanchored search end with the same NFA rows, those of the unanchored start. They are called the
//! *lead-in* and aren't repeated in keys.
//!
//! The contract: a stepper is seen as a `Stepping` (`specs/Stepping.antt`), which says which state a key stands for. A
//! step gives the key of exactly the state of the definitions, and no two keys stand for one state.
#![tactic(auto)]

mod byte_words;
mod closures;
mod column_span;
mod columns;
mod current;
mod gathered;
mod groups;
mod joined;
mod keys;
mod lead_in;
mod lead_steps;
mod listed_sets;
mod matches;
mod reading;
mod stamps;
mod stepper;
mod steps;
mod targets;
mod thin_row;

pub use stepper::Stepper;
