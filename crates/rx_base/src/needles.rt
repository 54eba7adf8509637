//! The bytes at which a search that skips stops.

ghost use Rattle.std.specs.Prelude.{◌≡◌, ◌≤◌, length};

use std::marker::Model;

/// A list of at most three bytes.
///
/// Contracts see it as that list.
#[derive(Clone, Copy, Debug)]
pub struct Needles {
    len: usize,
    /// The bytes, and zeros after them.
    bytes: [u8; 3],
}

impl Model for Needles {
    ghost use Rattle.std.specs.Prelude.{ℕ, List, take, length};
    ghost use Rattle.rx_base.specs.Needles.{AreNeedles, padded};
    ghost use Rattle.rx_base.specs.Inverses.{needles-inverse};

    ghost Value = { List ℕ };

    ghost view = { λ n. take n.len n.bytes };

    ghost invariant = { λ n. AreNeedles n.len n.bytes };

    ghost inverse = { λ xs. record { len = length xs; bytes = padded xs } };

    ghost inverse_ok = { λ n h. needles-inverse n h };
}

impl Needles {
    /// A list of at most three bytes.
    pub fn new(bytes: &[u8]) -> Needles
        requires { length bytes.now ≤ 3 }
        ensures { result ≡ bytes.now }
    {
        let mut kept = [0; 3];
        for (i, byte) in bytes.iter().enumerate() {
            kept[i] = *byte;
        }
        Needles {
            len: bytes.len(),
            bytes: kept,
        }
    }

    /// The bytes.
    #[inline]
    pub fn as_slice(&self) -> &[u8]
        ensures { result.now ≡ self.now }
    {
        &self.bytes[..self.len]
    }

    /// How many bytes there are.
    pub fn len(&self) -> usize
        ensures value { result ≡ length self.now }
        ensures bound { result ≤ 3 }
    {
        self.len
    }
}
