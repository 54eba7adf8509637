//! Replies.

ghost use Rattle.std.specs.Prelude.{◌≡◌, ◌≤◌};
ghost use Rattle.std.specs.String.{string_bytes};

use std::marker::Model;

/// The status if something matches, is counted, is accepted or is equal, or if an image is written.
pub const FOUND: u8 = 0;

/// The status if nothing matches, an image is rejected, a scan is stuck, or tables differ.
pub const NOT_FOUND: u8 = 1;

/// The status if the words aren't a command, or the script or the request has a fault.
pub const TURNED_DOWN: u8 = 2;

/// The status if a build is refused.
pub const REFUSED: u8 = 3;

/// The status if a search ends with an error.
pub const FAILED: u8 = 4;

/// A reply: the bytes to write, which are lines or an image, and the exit status, at most 4.
#[derive(Drop)]
pub struct Reply {
    text: Vec<u8>,
    status: u8,
}

impl Model for Reply {
    ghost use Rattle.std.specs.Prelude.{◌≤◌};
    ghost use Rattle.rx_main.specs.Lines.{Reply as Answer};

    ghost Value = { Answer };

    ghost view = { λ r. record { text = r.text.items; status = r.status } };

    ghost invariant = { λ r. r.status ≤ 4 };
}

impl Reply {
    /// A reply of lines.
    pub fn new(lines: String, status: u8) -> Reply
        requires { status ≤ 4 }
        ensures { result ≡ record { text = string_bytes lines; status = status } }
    {
        Reply::from_bytes(lines.into_bytes(), status)
    }

    /// A reply of bytes.
    pub fn from_bytes(text: Vec<u8>, status: u8) -> Reply
        requires { status ≤ 4 }
        ensures { result ≡ record { text = text.items; status = status } }
    {
        Reply { text, status }
    }

    /// The bytes to write.
    pub fn text(&self) -> &[u8]
        ensures { result.now ≡ self.now.text }
    {
        &self.text
    }

    /// The status.
    pub fn status(&self) -> u8
        ensures value { result ≡ self.now.status }
        ensures few { result ≤ 4 }
    {
        self.status
    }
}
