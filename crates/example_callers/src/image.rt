//! The caller of `docs/calling/rx_image.md`.

ghost use Rattle.std.specs.Prelude.{◌≤◌, IfOk, IfSome, length};
ghost use Rattle.rx_image.specs.Tables.{AreSound};

use rx_base::{Input, Match, MatchError};
use rx_image::{Tables, read_pair};
use rx_pair::Regex;
use rx_wire::DeserializeError;
use std::alloc::Global;

/// The first match of a text, by tables that were read from an image.
pub fn first(tables: &Tables<'_>, text: &[u8]) -> Result<Option<Match>, MatchError>
    requires { AreSound tables.now }
    ensures { IfOk result (λ found. IfSome found (λ m. m.end ≤ length text.now)) }
{
    match tables {
        Tables::Dense(forward, reverse) => Regex::new(forward, reverse).find(&Input::new(text)),
        Tables::Sparse(forward, reverse) => Regex::new(forward, reverse).find(&Input::new(text)),
    }
}

/// What the search of a text returns, unless the reader rejects the image.
pub fn first_by_image(
    alloc: Global,
    image: &[u8],
    text: &[u8],
) -> Result<Result<Option<Match>, MatchError>, DeserializeError> {
    match read_pair(alloc, image) {
        Ok((tables, _len)) => Ok(first(&tables, text)),
        Err(error) => Err(error),
    }
}
