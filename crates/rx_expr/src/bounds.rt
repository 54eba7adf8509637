//! The bounds of a repetition, and how many states it has.

ghost use Rattle.std.specs.Prelude.{◌≡◌, ◌^◌, ◌≤◌, min as least, IfErr, OnOk};
ghost use Rattle.rx_spec.specs.Expressions.{IsBounded};
ghost use Rattle.rx_spec.specs.Rows.{repeated_count};
ghost use Rattle.rx_expr.specs.ExprError.{RefusesBounds};

use crate::expr::{Expr, ExprError, ROWS_LIMIT};

/// Whether `min` is at most `max`, and the body reads a byte if there is no `max`.
pub(crate) fn check_bounds(min: u32, max: Option<u32>, body: &Expr) -> Result<(), ExprError>
    ensures ok { OnOk result (IsBounded min max body.now) }
    ensures err { IfErr result (RefusesBounds min max body.now) }
{
    match max {
        Some(max) if max < min => Err(ExprError::BadRange),
        None if body.min_len() == 0 => Err(ExprError::EmptyBody),
        _ => Ok(()),
    }
}

/// How many states a repetition has whose body has `body` states, capped at [`ROWS_LIMIT`].
pub(crate) fn repeated_rows(min: u32, max: Option<u32>, body: u64) -> u64
    requires { body ≤ 2 ^ 31 }
    ensures { result ≡ least (repeated_count min max body) (2 ^ 31) }
{
    let rows = match max {
        None => (u64::from(min) + 1) * body + 1,
        Some(max) => u64::from(min) * body + u64::from(max.saturating_sub(min)) * (body + 1),
    };
    rows.min(ROWS_LIMIT)
}
