//! The set of places where rows begin.

ghost use Rattle.std.specs.Prelude.{◌≡◌, ◌<◌, IfOk, length, replicate, false, true};
ghost use Rattle.rx_sparse_image.specs.RowSets.{begins_at, marked};

use std::alloc::{AllocError, Global};

/// The places at which rows begin.
#[derive(Drop)]
pub struct RowSet {
    /// For each place, whether a row begins there.
    begins: Vec<bool>,
}

impl RowSet {
    /// The empty set of places in `len` bytes.
    pub(crate) fn new(alloc: Global, len: usize) -> Result<RowSet, AllocError>
        ensures { IfOk result (λ rows. rows.begins.items ≡ replicate len false) }
    {
        Ok(RowSet {
            begins: vec![in alloc; false; len]?,
        })
    }

    /// Adds a place.
    pub(crate) fn insert(&mut self, at: usize)
        requires { at < length self.old.begins.items }
        ensures { self.new.begins.items ≡ marked self.old.begins.items at }
    {
        self.begins[at] = true;
    }

    /// Whether a row begins at a place.
    pub(crate) fn has(&self, at: usize) -> bool
        ensures { result ≡ begins_at self.now.begins.items at }
    {
        at < self.begins.len() && self.begins[at]
    }
}
