//! Equality of two tables, with evidence that a small checker tests.
//!
//! [`compare`] tells whether two tables mean the same. If they do, it returns [`Links`]: pairs of rows, each of which
//! is the pair at a start or follows from an earlier one, and [`check_links`] tests that they suffice. If they don't,
//! it returns a [`Parting`]: a start and a shortest word after which the tables tell different things, and
//! [`check_parting`] tests that they do. Who doesn't trust the comparison trusts the checkers, which don't search.
//!
//! Two tables mean the same where no start and no word parts them: at each start both are refused alike or both
//! begin, and after each word their rows tell the same patterns, and both quit or neither does
//! (`specs/Partings.antt`). A start is a mode and the byte beside the span. Forms, sizes, row numbers and accelerated
//! rows don't count. Tables that mean the same answer every half search and every overlapping search alike, and pairs
//! of them find the same matches ([`laws`]). Whether UTF-8 mode passes over matches isn't compared.
//!
//! A comparison takes a step for each pair of rows and each class that both tables keep: bytes that neither table
//! tells apart lead to one pair (`specs/Classes.antt`).
#![tactic(auto)]

mod check;
mod classes;
mod evidence;
pub mod examples;
pub mod laws;
mod pairs;
mod places;
mod walk;

pub use check::{check_links, check_parting};
pub use evidence::{Link, Links, Parting, Place, UnitList};
pub use walk::{Verdict, compare};
