//! What the definitions say: laws that a reader of them expects, and small questions that they answer by
//! computing.
//!
//! No function here computes anything: each has an empty body, and its contract carries laws ([`laws`]) or
//! examples ([`examples`]). No crate stands on this one, so an example proves nothing anew.
#![tactic(auto)]

pub mod examples;
pub mod laws;
