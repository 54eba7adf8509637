//! Where a search starts: what is known of the byte beside its span.

ghost use Rattle.std.specs.Prelude.{◌≡◌, None};
ghost use Rattle.rx_spec.specs.Contexts.{start_of_byte};
ghost use Rattle.rx_spec.specs.Queries.{Anchored as Mode};
ghost use Rattle.rx_spec.specs.Looks.{before, after};
ghost use Rattle.rx_base.specs.Input.{query_of};
ghost use Rattle.rx_base.specs.Search.{mode_of};

use crate::looks::{byte_after, byte_before};
use crate::{Anchored, Input, LookMatcher, Start};
use std::marker::Model;

/// What decides the row in which a search starts: the byte beside its span, on the side where reading
/// begins, and its mode.
///
/// Contracts see it as these two.
#[derive(Clone, Debug, Drop)]
pub struct Config {
    look_behind: Option<u8>,
    anchored: Anchored,
}

impl Model for Config {
    ghost use Rattle.rx_base.specs.Search.{mode_of};
    ghost use Rattle.rx_base.specs.StartConfig.{StartConfig};

    ghost Value = { StartConfig };

    ghost view = { λ c. record { beside = c.look_behind; mode = mode_of c.anchored } };
}

impl Config {
    /// No byte, and no anchor.
    pub fn new() -> Config
        ensures { result ≡ record { beside = None; mode = Mode.No } }
    {
        Config {
            look_behind: None,
            anchored: Anchored::No,
        }
    }

    /// The same with this byte beside the span, or with none.
    pub fn look_behind(self, byte: Option<u8>) -> Config
        ensures { result ≡ record self { beside = byte } }
    {
        Config {
            look_behind: byte,
            ..self
        }
    }

    /// The same in this mode.
    pub fn anchored(self, mode: Anchored) -> Config
        ensures { result ≡ record self { mode = mode_of mode } }
    {
        Config {
            anchored: mode,
            ..self
        }
    }

    /// The byte beside the span.
    pub fn get_look_behind(&self) -> Option<u8>
        ensures { result ≡ self.now.beside }
    {
        self.look_behind
    }

    /// The mode.
    pub fn get_anchored(&self) -> Anchored
        ensures { mode_of result ≡ self.now.mode }
    {
        self.anchored
    }

    /// Of a forward search: the byte before the span's start, where there is one.
    pub fn from_input_forward(input: &Input) -> Config
        ensures { let q = query_of input.now in
            result ≡ record { beside = before q.haystack q.start; mode = q.mode } }
    {
        Config {
            look_behind: byte_before(input.haystack(), input.start()),
            anchored: input.get_anchored(),
        }
    }

    /// Of a search in reverse: the byte at the span's end, where there is one.
    pub fn from_input_reverse(input: &Input) -> Config
        ensures { let q = query_of input.now in
            result ≡ record { beside = after q.haystack q.end; mode = q.mode } }
    {
        Config {
            look_behind: byte_after(input.haystack(), input.end()),
            anchored: input.get_anchored(),
        }
    }
}

impl Default for Config {
    ghost is_default = { λ config. config ≡ record { beside = None; mode = Mode.No } };

    fn default() -> Config {
        Config::new()
    }
}

/// The start context that each byte gives, under a line terminator.
///
/// A search asks once, so the contexts are computed and not stored. Contracts see the map as the line
/// terminator.
#[derive(Clone, Debug, Drop)]
pub struct StartByteMap {
    line_terminator: u8,
}

impl Model for StartByteMap {
    ghost use Rattle.std.specs.Prelude.{ℕ};

    ghost Value = { ℕ };

    ghost view = { λ map. map.line_terminator };
}

impl StartByteMap {
    /// Under the line terminator of a matcher.
    pub fn new(lookm: &LookMatcher) -> StartByteMap
        ensures { result ≡ lookm.now }
    {
        StartByteMap {
            line_terminator: lookm.get_line_terminator(),
        }
    }

    /// The start context of a byte. A line terminator other than `\n` and `\r` has its own, also where
    /// it is a word byte.
    pub fn get(&self, byte: u8) -> Start
        ensures { result ≡ start_of_byte self.now byte }
    {
        match byte {
            b'\n' => Start::LineLF,
            b'\r' => Start::LineCR,
            _ if byte == self.line_terminator => Start::CustomLineTerminator,
            b'0'..=b'9' | b'A'..=b'Z' | b'_' | b'a'..=b'z' => Start::WordByte,
            _ => Start::NonWordByte,
        }
    }
}
