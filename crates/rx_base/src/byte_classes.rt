//! Byte classes: runs of bytes that a table need not tell apart.

ghost use Rattle.std.specs.Prelude.{◌≡◌, ℕ, ◌+◌, ◌<◌, ◌≤◌, ◌↔◌, ◌||◌, [], ◌∷◌, ◌++◌};
ghost use Rattle.std.specs.Prelude.{IsSome, IfSome, length, slice_index};
ghost use Rattle.rx_spec.specs.Bytes.{contains, between, eoi};
ghost use Rattle.rx_spec.specs.Classes.{class_by, begins_class, representatives, stride2_of, parts};
ghost use Rattle.rx_base.specs.ByteClasses.{AreClasses, ends_of, alphabet_len, elements_from};

use crate::{ByteSet, Unit};
use std::marker::Model;

/// Which bytes end a class: the byte after such a one is told apart from it.
///
/// Contracts see it as the set of these bytes. Whether the last byte is in it means nothing.
#[derive(Clone, Debug, Drop)]
pub struct ByteClassSet {
    ends: ByteSet,
}

impl Model for ByteClassSet {
    ghost use Rattle.std.specs.Prelude.{ℕ};

    ghost Value = { ℕ };

    ghost view = { λ s. s.ends };
}

impl ByteClassSet {
    /// No byte is told apart from another.
    pub fn empty() -> ByteClassSet
        ensures { result ≡ 0 }
    {
        ByteClassSet {
            ends: ByteSet::empty(),
        }
    }

    /// Tells the bytes from `start` to `end` apart from the others.
    pub fn set_range(&mut self, start: u8, end: u8)
        requires { start ≤ end }
        ensures { (b : ℕ) → b < 255
            → contains self.new b ≡ (contains self.old b || parts (contains (between start end)) b (b + 1)) }
    {
        if start > 0 {
            self.ends.add(start - 1);
        }
        self.ends.add(end);
    }

    /// Tells the bytes of a set apart from the others.
    pub fn add_set(&mut self, set: &ByteSet)
        ensures { (b : ℕ) → b < 255
            → contains self.new b ≡ (contains self.old b || parts (contains set.now) b (b + 1)) }
    {
        self.ends = self.ends.union(&set.ends());
    }

    /// The classes that end there.
    pub fn byte_classes(&self) -> ByteClasses
        ensures { (b : ℕ) → b < 256 → slice_index result b ≡ class_by (contains self.now) b }
    {
        let mut classes = ByteClasses::empty().classes;
        let mut class = 0;
        for byte in 0..255 {
            if self.ends.contains(byte) {
                class += 1;
            }
            classes[byte as usize + 1] = class;
        }
        ByteClasses { classes }
    }
}

/// The class of each byte. Classes are runs of bytes, numbered from 0 in rising order.
///
/// Contracts see it as the list of the 256 classes.
#[derive(Clone, Copy, Debug)]
pub struct ByteClasses {
    classes: [u8; 256],
}

impl Model for ByteClasses {
    ghost use Rattle.std.specs.Prelude.{ℕ, List};
    ghost use Rattle.rx_base.specs.ByteClasses.{AreClasses};

    ghost Value = { List ℕ };

    ghost view = { λ c. c.classes };

    ghost invariant = { λ c. AreClasses c.classes };

    ghost inverse = { λ xs. record { classes = xs } };
}

impl ByteClasses {
    /// One class of all bytes.
    pub fn empty() -> ByteClasses
        ensures { (b : ℕ) → b < 256 → slice_index result b ≡ 0 }
    {
        ByteClasses { classes: [0; 256] }
    }

    /// A class for each byte.
    pub fn singletons() -> ByteClasses
        ensures { (b : ℕ) → b < 256 → slice_index result b ≡ b }
    {
        let mut classes = ByteClasses::empty().classes;
        for byte in 0..256 {
            classes[byte] = byte as u8;
        }
        ByteClasses { classes }
    }

    /// The classes that 256 bytes name, where these begin at 0 and rise by 0 or 1.
    pub fn from_bytes(bytes: &[u8]) -> Option<ByteClasses>
        requires { length bytes.now ≡ 256 }
        ensures value { IfSome result (λ classes. classes ≡ bytes.now) }
        ensures exactly { IsSome result ↔ AreClasses bytes.now }
    {
        if bytes[0] != 0 {
            return None;
        }
        for byte in 0..255 {
            match bytes[byte + 1].checked_sub(bytes[byte]) {
                Some(0 | 1) => {}
                _ => return None,
            }
        }
        let mut classes = [0; 256];
        classes.copy_from_slice(bytes);
        Some(ByteClasses { classes })
    }

    /// The class of each byte.
    pub fn as_bytes(&self) -> &[u8]
        ensures { result.now ≡ self.now }
    {
        &self.classes
    }

    /// The class of a byte.
    #[inline]
    pub fn get(&self, byte: u8) -> u8
        ensures { result ≡ slice_index self.now byte }
    {
        self.classes[byte as usize]
    }

    /// How many columns a table has: one for each class, and one for the end mark.
    pub fn alphabet_len(&self) -> usize
        ensures value { result ≡ alphabet_len self.now }
        ensures classes { AreClasses self.now }
    {
        self.classes[255] as usize + 2
    }

    /// The exponent of the least power of two that is no less than the number of columns.
    pub fn stride2(&self) -> usize
        ensures { result ≡ stride2_of (alphabet_len self.now) }
    {
        let len = self.alphabet_len();
        let mut exponent = 0;
        while 1 << exponent < len {
            exponent += 1;
        }
        exponent
    }

    /// A unit of each column in order: the least byte of each class, and the end mark.
    pub fn representatives(&self) -> Representatives<'_>
        ensures { result ≡ representatives (ends_of self.now) ++ (eoi ∷ []) }
    {
        Representatives {
            classes: self,
            at: 0,
        }
    }

    /// The bytes of a class in rising order. There must be such a class.
    pub fn elements(&self, class: u8) -> Elements<'_>
        requires { class ≤ slice_index self.now 255 }
        ensures { result ≡ elements_from self.now class 0 }
    {
        Elements {
            classes: self,
            class,
            at: 0,
        }
    }

    /// Whether a byte is the least of its class.
    fn begins_class(&self, byte: u8) -> bool
        ensures { result ≡ begins_class (ends_of self.now) byte }
    {
        byte == 0 || self.get(byte - 1) != self.get(byte)
    }
}

/// The units that [`ByteClasses::representatives`] yields.
///
/// Contracts see it as the list of those that are left, each as its number.
#[derive(Clone, Debug, Drop)]
pub struct Representatives<'a> {
    classes: &'a ByteClasses,
    /// The first byte that wasn't looked at; 256 is the end mark's place.
    at: u16,
}

impl<'a> Model for Representatives<'a> {
    ghost use Rattle.std.specs.Prelude.{ℕ, List};
    ghost use Rattle.rx_base.specs.ByteClasses.{representatives_from};

    ghost Value = { List ℕ };

    ghost view = { λ r. representatives_from r.classes.now r.at };
}

impl<'a> Iterator for Representatives<'a> {
    ghost use Rattle.std.specs.Iterator.{YieldsFirstBy, item_count};
    ghost use Rattle.rx_base.specs.Unit.{unit_number};

    type Item = Unit;

    ghost next_gives = { YieldsFirstBy unit_number (λ left. left) };

    ghost remaining = { item_count (λ left. left) };

    fn next(&mut self) -> Option<Unit> {
        while self.at < 256 {
            let byte = self.at as u8;
            self.at += 1;
            if self.classes.begins_class(byte) {
                return Some(Unit::Byte(byte));
            }
        }
        if self.at == 256 {
            self.at = 257;
            return Some(Unit::Eoi);
        }
        None
    }
}

/// The bytes that [`ByteClasses::elements`] yields.
///
/// Contracts see it as the list of those that are left.
#[derive(Clone, Debug, Drop)]
pub struct Elements<'a> {
    classes: &'a ByteClasses,
    class: u8,
    /// The first byte that wasn't looked at, or 256.
    at: u16,
}

impl<'a> Model for Elements<'a> {
    ghost use Rattle.std.specs.Prelude.{ℕ, List};
    ghost use Rattle.rx_base.specs.ByteClasses.{elements_from};

    ghost Value = { List ℕ };

    ghost view = { λ e. elements_from e.classes.now e.class e.at };
}

impl<'a> Iterator for Elements<'a> {
    ghost use Rattle.std.specs.Iterator.{YieldsFirst, item_count};

    type Item = u8;

    ghost next_gives = { YieldsFirst (λ left. left) };

    ghost remaining = { item_count (λ left. left) };

    fn next(&mut self) -> Option<u8> {
        while self.at < 256 {
            let byte = self.at as u8;
            self.at += 1;
            if self.classes.get(byte) == self.class {
                return Some(byte);
            }
        }
        None
    }
}
