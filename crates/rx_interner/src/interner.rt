//! The interner: lists of numbers, each kept once.

ghost use Rattle.std.specs.Prelude.{◌≡◌, ◌≢◌, ◌<◌, ◌^◌, ◌↔◌, [], ◌∷◌, ◌++◌, if◌then◌else◌, length, slice_get, Some};
ghost use Rattle.std.specs.Prelude.{IsTrue, IfOk, OnErr, Contains, AllPairs};

use crate::hash::hash_of;
use crate::links::Links;
use std::alloc::{AllocError, Global};
use std::collections::HashMap;
use std::collections::hash_map::Entry;
use std::marker::Model;

/// The result of interning a list.
#[derive(Clone, Copy, Debug, PartialEq, Eq)]
pub struct Interned {
    /// The list's number.
    pub id: u32,
    /// Whether the list is new.
    pub is_new: bool,
}

/// Lists of numbers, each kept once, numbered from 0 in the order in which they were added.
///
/// Contracts see it as the list of these lists, its keys.
#[derive(Drop)]
pub struct Interner {
    links: Links,
    /// For each hash, the number of its newest key.
    newest: HashMap<u64, u32>,
}

impl Model for Interner {
    ghost use Rattle.std.specs.Prelude.{ℕ, List, nat_eq};
    ghost use Rattle.std.specs.HashMap.{get};
    ghost use Rattle.rx_interner.specs.Links.{keys_of};
    ghost use Rattle.rx_interner.specs.Index.{IsIndex};

    ghost Value = { List (List ℕ) };

    ghost view = { λ s. keys_of s.links };

    ghost invariant = { λ s. IsIndex s.links (get nat_eq s.newest) };
}

impl Interner {
    /// An interner without keys.
    pub fn new(alloc: Global) -> Interner
        ensures { result ≡ [] }
    {
        Interner {
            links: Links::new(alloc),
            newest: HashMap::new(alloc),
        }
    }

    /// The number of keys.
    pub fn len(&self) -> usize
        ensures value { result ≡ length self.now }
        ensures distinct { AllPairs (λ key other. key ≢ other) self.now }
    {
        self.links.len()
    }

    /// The key with this number.
    pub fn key(&self, id: u32) -> &[u32]
        requires { id < length self.now }
        ensures { slice_get self.now id ≡ Some result.now }
    {
        self.links.get(id).0
    }

    /// The number of a key. Adds the key if it is new.
    pub fn intern(&mut self, key: &[u32]) -> Result<Interned, AllocError>
        requires { length self.old < 2 ^ 32 }
        ensures new { IfOk result (λ r. IsTrue r.is_new ↔ ¬ Contains self.old key.now) }
        ensures keys { IfOk result (λ r. self.new ≡ (if r.is_new then self.old ++ key.now ∷ [] else self.old)) }
        ensures id { IfOk result (λ r. slice_get self.new r.id ≡ Some key.now) }
        ensures err { OnErr result (self.new ≡ self.old) }
    {
        match self.newest.entry(hash_of(key))? {
            Entry::Occupied(mut entry) => {
                let newest = *entry.get();
                if let Some(id) = self.links.find(key, newest) {
                    return Ok(Interned { id, is_new: false });
                }
                let id = self.links.push(key, Some(newest))?;
                entry.insert(id);
                Ok(Interned { id, is_new: true })
            }
            Entry::Vacant(entry) => {
                let id = self.links.push(key, None)?;
                entry.insert(id);
                Ok(Interned { id, is_new: true })
            }
        }
    }
}
