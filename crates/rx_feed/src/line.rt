//! A line of output that needs no allocation.

ghost use Rattle.std.specs.Prelude.{◌≡◌, ◌≤◌, ◌<◌, ◌+◌, ◌∷◌, ◌++◌, length};
ghost use Rattle.std.specs.Fmt.{decimal};
ghost use Rattle.rx_transfer.specs.Words.{newline};

use std::marker::Model;

/// The greatest length of a line in bytes.
const ROOM: usize = 64;

/// A line of at most 64 bytes. It is built from its end to its front.
#[derive(Drop)]
pub(crate) struct Line {
    bytes: [u8; ROOM],
    start: usize,
}

impl Model for Line {
    ghost use Rattle.std.specs.Prelude.{◌≤◌, ℕ, List, drop};

    ghost Value = { List ℕ };

    ghost view = { λ l. drop l.start l.bytes };

    ghost invariant = { λ l. l.start ≤ 64 };
}

impl Line {
    /// An empty line, with its line feed.
    pub(crate) fn new() -> Line
        ensures { result ≡ newline }
    {
        Line {
            bytes: [b'\n'; ROOM],
            start: ROOM - 1,
        }
    }

    /// The bytes of the line.
    pub(crate) fn as_slice(&self) -> &[u8]
        ensures { result.now ≡ self.now }
    {
        &self.bytes[self.start..]
    }

    /// Adds a byte at the front.
    pub(crate) fn prepend_byte(&mut self, byte: u8)
        requires { length self.old < 64 }
        ensures { self.new ≡ byte ∷ self.old }
    {
        self.start -= 1;
        self.bytes[self.start] = byte;
    }

    /// Adds a text at the front.
    pub(crate) fn prepend(&mut self, text: &[u8])
        requires { length text.now + length self.old ≤ 64 }
        ensures bytes { self.new ≡ text.now ++ self.old }
        ensures len { length self.new ≡ length text.now + length self.old }
    {
        let mut left = text.len();
        'bytes: while left > 0 {
            left -= 1;
            self.prepend_byte(text[left]);
        }
    }

    /// Adds a number in decimal at the front.
    pub(crate) fn prepend_number(&mut self, number: u64)
        requires { length self.old ≤ 44 }
        ensures bytes { self.new ≡ decimal number ++ self.old }
        ensures len { length self.new ≤ 20 + length self.old }
    {
        let mut rest = number;
        'digits: while rest >= 10 {
            self.prepend_byte(b'0' + (rest % 10) as u8);
            rest /= 10;
        }
        self.prepend_byte(b'0' + rest as u8);
    }
}
