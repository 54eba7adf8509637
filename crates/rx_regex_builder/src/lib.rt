//! Builds pairs of tables by settings.
//!
//! A [`Builder`] builds both tables of a list of expressions: a forward table, and a reverse table of the mirrored
//! expressions. [`RegexBuild`] has calls that build by default settings.
//!
//! The contract: both tables are built of these expressions by one list of settings, except for what a reverse table
//! needs (`specs/Pairs.antt`). An error names a cause that holds, of the forward table or otherwise of the reverse one.
#![tactic(auto)]

mod builder;
mod regex_build;

pub use builder::Builder;
pub use regex_build::RegexBuild;
pub use rx_build::BuildError;
pub use rx_pair::Regex;
