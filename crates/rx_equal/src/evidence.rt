//! Evidence: links that show that two tables are equal, and what parts two that are not.

ghost use Rattle.std.specs.Prelude.{◌≡◌, ◌<◌, [], ◌∷◌, ◌++◌, length, slice_get, Some, OnOk, OnErr};
ghost use Rattle.rx_base.specs.Search.{mode_of};

use rx_base::start::Config;
use rx_base::{Anchored, Unit};
use std::alloc::{AllocError, Global};
use std::marker::Model;

/// Where a search starts: a mode, and the byte beside the span, if there is one.
#[derive(Clone, Copy, Debug, PartialEq, Eq)]
pub struct Place {
    mode: Anchored,
    behind: Option<u8>,
}

impl Model for Place {
    ghost use Rattle.rx_base.specs.Search.{mode_of};
    ghost use Rattle.rx_base.specs.StartConfig.{StartConfig};
    ghost use Rattle.rx_equal.specs.Modes.{mode_from};

    ghost Value = { StartConfig };

    ghost view = { λ p. record { beside = p.behind; mode = mode_of p.mode } };

    ghost inverse = { λ v. record { mode = mode_from v.mode; behind = v.beside } };
}

impl Place {
    /// The place of a mode and of the byte beside the span, or of none at the edge of a text.
    pub fn new(mode: Anchored, behind: Option<u8>) -> Place
        ensures { result ≡ record { beside = behind; mode = mode_of mode } }
    {
        Place { mode, behind }
    }

    /// The mode.
    pub fn mode(&self) -> Anchored
        ensures { mode_of result ≡ self.now.mode }
    {
        self.mode
    }

    /// The byte beside the span, if there is one.
    pub fn behind(&self) -> Option<u8>
        ensures { result ≡ self.now.beside }
    {
        self.behind
    }

    /// What a table is asked for the start at this place.
    pub(crate) fn config(&self) -> Config
        ensures { result ≡ self.now }
    {
        Config::new().look_behind(self.behind).anchored(self.mode)
    }
}

/// One step of the evidence. It names a row of each table: where both begin at a place, or where a unit leads from the
/// pair of an earlier link.
#[derive(Clone, Copy, Debug, PartialEq, Eq)]
pub enum Link {
    /// The start rows at a place.
    Start(Place),
    /// The rows to which a unit leads from the pair of an earlier link.
    Next {
        /// The place of the earlier link in the list, from 0.
        from: u64,
        /// The unit.
        unit: Unit,
    },
}

/// A list of links.
#[derive(Drop)]
pub struct Links {
    items: Vec<Link>,
}

impl Model for Links {
    ghost use Rattle.std.specs.Prelude.{List};
    ghost use Rattle.rx_equal.specs.declared.evidence.Link.{Link};

    ghost Value = { List Link };

    ghost view = { λ s. s.items.items };
}

impl Links {
    /// No links.
    pub fn new(alloc: Global) -> Links
        ensures { result ≡ [] }
    {
        Links {
            items: Vec::new(alloc),
        }
    }

    /// Adds a link at the end. If memory runs out, the list stays as it was.
    pub fn push(&mut self, item: Link) -> Result<(), AllocError>
        ensures ok { OnOk result (self.new ≡ self.old ++ item ∷ []) }
        ensures err { OnErr result (self.new ≡ self.old) }
    {
        match self.items.push(item) {
            Ok(()) => Ok(()),
            Err(_) => Err(AllocError),
        }
    }

    /// How many items there are.
    pub fn len(&self) -> usize
        ensures { result ≡ length self.now }
    {
        self.items.len()
    }

    /// The item at a place, from 0.
    pub fn get(&self, i: usize) -> Link
        requires { i < length self.now }
        ensures { slice_get self.now i ≡ Some result }
    {
        self.items[i]
    }
}

/// A word: bytes, or the end of input.
#[derive(Drop)]
pub struct UnitList {
    items: Vec<Unit>,
}

impl Model for UnitList {
    ghost use Rattle.std.specs.Prelude.{List};
    ghost use Rattle.rx_spec.specs.declared.Unit.{Unit};

    ghost Value = { List Unit };

    ghost view = { λ s. s.items.items };
}

impl UnitList {
    /// No units.
    pub fn new(alloc: Global) -> UnitList
        ensures { result ≡ [] }
    {
        UnitList {
            items: Vec::new(alloc),
        }
    }

    /// Adds a unit at the end. If memory runs out, the word stays as it was.
    pub fn push(&mut self, item: Unit) -> Result<(), AllocError>
        ensures ok { OnOk result (self.new ≡ self.old ++ item ∷ []) }
        ensures err { OnErr result (self.new ≡ self.old) }
    {
        self.items.push(item)?;
        Ok(())
    }

    /// How many items there are.
    pub fn len(&self) -> usize
        ensures { result ≡ length self.now }
    {
        self.items.len()
    }

    /// The item at a place, from 0.
    pub fn get(&self, i: usize) -> Unit
        requires { i < length self.now }
        ensures { slice_get self.now i ≡ Some result }
    {
        self.items[i]
    }
}

/// A place and a word after which two tables tell different things.
#[derive(Drop)]
pub struct Parting {
    /// Where both begin.
    pub place: Place,
    /// The word that is read from there; empty where the starts themselves differ.
    pub word: UnitList,
}
