//! Searches of long texts that look for a literal first.
//!
//! If each match begins with the same bytes, as all matches of one literal do, finding these bytes is several times as
//! fast as a walk over the table. [`try_search`] reads such a literal off the table itself, so it also serves tables
//! that were read from images. `specs/Literals.antt` defines when a literal may be looked for.
#![tactic(auto)]

pub mod laws;
mod literal;
mod only;
mod search;
pub mod seek;

pub use only::{OnlyLiteral, only_literal};
pub use search::{Answer, try_search};
