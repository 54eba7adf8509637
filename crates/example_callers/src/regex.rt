//! The caller of `docs/calling/rx_regex.md`.

ghost use Rattle.std.specs.Prelude.{◌≡◌, IfOk, IfSome, List};
ghost use Rattle.rx_spec.specs.Expressions.{Expression};
ghost use Rattle.rx_plan.specs.Plans.{Plan as SearchPlan, outcome};
ghost use Rattle.rx_spec.specs.Queries.{IsFit, LiesIn};
ghost use Rattle.rx_base.specs.Input.{query_of};
ghost use Rattle.rx_regex.specs.Tables.{IsOf};

use rx_base::{Input, Match, MatchError};
use rx_expr::Expr;
use rx_regex::{BuildError, Built, Form, Order, Plan, build_pair_image};
use std::alloc::Global;

/// Sparse tables with the fewest states. The size limit of each is 64 KiB.
fn plan() -> Plan {
    Plan {
        minimize: true,
        form: Form::Sparse,
        dfa_limit: Some(1 << 16),
        ..Plan::new()
    }
}

/// Tables of patterns, built once.
pub fn build(alloc: Global, patterns: &[Expr]) -> Result<Built, BuildError> {
    Built::new(alloc, patterns, &plan())
}

/// The same tables as one image, which `rx_image` reads.
pub fn build_image(alloc: Global, patterns: &[Expr]) -> Result<Vec<u8>, BuildError> {
    build_pair_image(alloc, patterns, &plan(), Order::Little)
}

/// The first match in a part of a text.
pub fn first(tables: &Built, part: &Input<'_>) -> Result<Option<Match>, MatchError>
    requires { IsFit (query_of part.now) }
    ensures within { IfOk result (λ found. IfSome found (LiesIn (query_of part.now))) }
    ensures answer { (p : SearchPlan) (es : List Expression) → IsOf p es tables.now
        → result ≡ outcome p es (query_of part.now) }
{
    tables.search(part)
}
