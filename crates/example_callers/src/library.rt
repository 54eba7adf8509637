//! The example of README.md: an expression built by calls, two tables, and a search.

use rx_base::{ByteSet, Input, MatchError};
use rx_dense::OwnedDFA;
use rx_expr::{Expr, ExprError};
use rx_regex::{BuildError, Regex, RegexBuild};
use std::alloc::Global;

/// `error [0-9]+`
pub fn numbered_error(alloc: Global) -> Result<Expr, ExprError> {
    let mut digit = ByteSet::empty();
    for byte in b'0'..=b'9' {
        digit.add(byte);
    }
    let number = Expr::repeat(alloc, 1, None, true, Expr::class(digit))?;
    Expr::concat(alloc, Expr::literal(alloc, b"error ")?, number)
}

/// Tables of patterns, built once.
pub fn tables(alloc: Global, patterns: &[Expr]) -> Result<Regex<OwnedDFA>, BuildError> {
    Regex::<OwnedDFA>::new_many(alloc, patterns)
}

/// The first match in a text.
pub fn first<'t>(regex: &Regex<OwnedDFA>, text: &'t [u8]) -> Result<&'t [u8], MatchError> {
    match regex.find(&Input::new(text)) {
        Ok(Some(found)) => Ok(&text[found.start()..found.end()]),
        Ok(None) => Ok(&[]),
        Err(error) => Err(error),
    }
}
