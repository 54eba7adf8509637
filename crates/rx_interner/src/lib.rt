//! Numbers lists of numbers, so that each list is kept once and two lists are compared by their numbers.
//!
//! Start with [`Interner::intern`]. Lists get numbers from 0 in the order in which they are added. Contracts see an
//! interner as the list of its keys; a key's number is its place there.
//!
//! The keys lie one after another in one vector of words (`links.rt`). A map leads from each hash to the newest key
//! with that hash, and each key leads to the next older one (`specs/Index.antt`). Keys are compared number by number,
//! so the hash (`hash.rt`) decides only how fast a key is found.
#![tactic(auto)]

mod hash;
mod interner;
mod links;

pub use interner::{Interned, Interner};
