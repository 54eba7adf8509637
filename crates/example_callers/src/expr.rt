//! The caller of `docs/calling/rx_expr.md`.

ghost use Rattle.std.specs.Prelude.{◌≡◌, IfOk, Some, true};
ghost use Rattle.rx_spec.specs.Expressions.{Expression};

use rx_base::{ByteSet, Look};
use rx_expr::{Expr, ExprError};
use std::alloc::Global;

/// `(?m:^)(?:warn|error): `
pub fn level(alloc: Global) -> Result<Expr, ExprError> {
    let warn = Expr::literal(alloc, b"warn")?;
    let error = Expr::literal(alloc, b"error")?;
    let word = Expr::alternate(alloc, warn, error)?;
    let begin = Expr::concat(alloc, Expr::look(Look::StartLF), word)?;
    Expr::concat(alloc, begin, Expr::literal(alloc, b": ")?)
}

/// One to `most` bytes of a set, as many as there are.
pub fn some_of(alloc: Global, set: ByteSet, most: u32) -> Result<Expr, ExprError>
    ensures { IfOk result (λ e. e ≡ Expression.Repeat 1 (Some most) true (Expression.Class set)) }
{
    Expr::repeat(alloc, 1, Some(most), true, Expr::class(set))
}
