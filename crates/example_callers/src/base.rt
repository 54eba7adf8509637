//! The caller of `docs/calling/rx_base.md`.

ghost use Rattle.std.specs.Prelude.{◌≡◌, ◌≤◌, false, length};
ghost use Rattle.rx_spec.specs.Queries.{Anchored as Mode, IsFit};
ghost use Rattle.rx_base.specs.Input.{query_of};

use rx_base::{Anchored, Input, Match};

/// Searches the bytes of a text from `start` on, for a match that begins at `start`.
pub fn input_at(text: &[u8], start: usize) -> Input<'_>
    requires { start ≤ length text.now }
    ensures fits { IsFit (query_of result) }
    ensures asked { query_of result ≡ record {
      haystack = text.now;
      start = start;
      end = length text.now;
      mode = Mode.Yes;
      earliest = false;
    } }
{
    Input::new(text)
        .range(start, text.len())
        .anchored(Anchored::Yes)
}

/// The bytes of a match, if the text has them.
pub fn bytes_of<'t>(text: &'t [u8], found: &Match) -> Option<&'t [u8]> {
    text.get(found.start()..found.end())
}
