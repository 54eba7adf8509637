//! The callers of the pages in `docs/calling`: a file for each crate, and in it the code that the crate's page shows.
//! `library` has the code of README.md.
#![tactic(auto)]

pub mod base;
pub mod build;
pub mod dense;
pub mod dense_image;
pub mod equal;
pub mod expr;
pub mod image;
pub mod library;
pub mod pair;
pub mod prefilter;
pub mod regex;
pub mod scan;
pub mod search;
pub mod sparse;
pub mod sparse_build;
pub mod sparse_image;
pub mod stream;
