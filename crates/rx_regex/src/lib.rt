//! Builds tables of a list of expressions and finds their matches.
//!
//! [`compile_and_find`] takes expressions, a [`Plan`] and an input, and returns the leftmost match with the sizes of
//! the two tables, or an error. Its contract says what is found without an automaton; only the causes of errors mention
//! one. It builds a plan's tables ([`Built`]) and searches them.
//!
//! - To search more than once, keep the [`Built`], or make a [`Regex`] by settings of your own ([`laws`] say what it
//!   finds).
//! - [`build_image`] builds one table of a plan and returns its image.
//! - [`build_pair_image`] returns one image of both tables, which `rx_image` reads.
#![tactic(auto)]

mod built;
mod built_matches;
mod dense_tables;
mod error;
mod find;
mod form;
mod image;
pub mod laws;
mod pair_image;
mod plan_table;
mod planned;
mod sparse_tables;
mod tables;

pub use built_matches::BuiltMatches;
pub use error::FindFault;
pub use find::{Answer, compile_and_find};
pub use image::build_image;
pub use pair_image::build_pair_image;
pub use plan_table::PlanTable;
pub use rx_build::{BuildError, BuildErrorKind};
pub use rx_pair::{FindMatches, Regex};
pub use rx_plan::{Form, Passage, Plan};
pub use rx_regex_builder::{Builder, RegexBuild};
pub use rx_wire::Order;
pub use tables::Built;
