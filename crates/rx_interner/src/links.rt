//! Lists of numbers in one vector of words, each linked to an older one.

ghost use Rattle.std.specs.Prelude.{◌≡◌, ◌<◌, ◌^◌, [], ◌∷◌, ◌++◌, length, slice_get, Some, unwrap_or};
ghost use Rattle.std.specs.Prelude.{OnOk, OnErr, IfOk, IfSome, IfNone, Contains};
ghost use Rattle.rx_interner.specs.Hash.{hash_of};
ghost use Rattle.rx_interner.specs.Links.{Link, keys_of};
ghost use Rattle.rx_interner.specs.Index.{AreChained, newest_of};

use std::alloc::{AllocError, Global};
use std::marker::Model;

/// Where a key lies among the words, and the number of the older key that it links to.
#[derive(Clone, Copy)]
struct Entry {
    start: usize,
    end: usize,
    older: u32,
}

/// Keys by their numbers, each linked to an older one.
///
/// Contracts see it as the list of its links.
#[derive(Drop)]
pub(crate) struct Links {
    words: Vec<u32>,
    entries: Vec<Entry>,
}

impl Model for Links {
    ghost use Rattle.std.specs.Prelude.{List, map};
    ghost use Rattle.rx_interner.specs.Links.{Link};

    ghost Value = { List Link };

    ghost use Rattle.rx_interner.specs.Entries.{AreSpans, link_in};

    ghost view = { λ s. map (link_in s.words.items) s.entries.items };

    ghost invariant = { λ s. AreSpans s.words.items s.entries.items };
}

impl Links {
    /// No keys.
    pub(crate) fn new(alloc: Global) -> Links
        ensures { result ≡ [] }
    {
        Links {
            words: Vec::new(alloc),
            entries: Vec::new(alloc),
        }
    }

    /// The number of keys.
    pub(crate) fn len(&self) -> usize
        ensures { result ≡ length self.now }
    {
        self.entries.len()
    }

    /// The key with this number, and the number that it links to.
    pub(crate) fn get(&self, id: u32) -> (&[u32], u32)
        requires { id < length self.now }
        ensures { slice_get self.now id ≡ Some record { key = result.0.now; older = result.1 } }
    {
        let entry = self.entries[id as usize];
        (&self.words[entry.start..entry.end], entry.older)
    }

    /// Adds a key that links to an older one, or to itself, and returns its number.
    pub(crate) fn push(&mut self, key: &[u32], older: Option<u32>) -> Result<u32, AllocError>
        requires { length self.old < 2 ^ 32 }
        ensures ok { OnOk result (self.new
            ≡ self.old ++ record { key = key.now; older = unwrap_or older (length self.old) } ∷ []) }
        ensures id { IfOk result (λ id. id ≡ length self.old) }
        ensures err { OnErr result (self.new ≡ self.old) }
    {
        let id = self.entries.len() as u32;
        let start = self.words.len();
        self.words.extend_from_slice(key)?;
        self.entries.push(Entry {
            start,
            end: self.words.len(),
            older: older.unwrap_or(id),
        })?;
        Ok(id)
    }

    /// Finds a key: starts at the newest key of its hash and follows the links. Returns its number.
    pub(crate) fn find(&self, key: &[u32], newest: u32) -> Option<u32>
        requires chained { AreChained self.now }
        requires newest { newest_of (hash_of key.now) (keys_of self.now) ≡ Some newest }
        ensures found { IfSome result (λ id. slice_get (keys_of self.now) id ≡ Some key.now) }
        ensures none { IfNone result (¬ Contains (keys_of self.now) key.now) }
    {
        let mut id = newest;
        'chain: loop {
            let (kept, older) = self.get(id);
            if kept == key {
                return Some(id);
            }
            if older == id {
                return None;
            }
            id = older;
        }
    }
}
