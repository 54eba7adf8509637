//! Lemmas on expressions, rows, walks, tables and searches that more than one crate cites.
//!
//! There is no code here. `proofs/Lib.antt` lists the files in reading order.
#![tactic(auto)]
