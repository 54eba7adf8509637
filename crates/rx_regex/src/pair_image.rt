//! Images of both tables of a plan.

ghost use Rattle.std.specs.Prelude.{◌≡◌, IfOk, IfErr, OnOk};
ghost use Rattle.rx_expr.specs.Refusals.{IsRefused};
ghost use Rattle.rx_plan.specs.Plan.{plan_of};
ghost use Rattle.rx_regex.specs.Find.{PlanFits, PlanRefused};
ghost use Rattle.rx_regex.specs.Images.{IsPairImage};

use crate::form::{TableForm, build_pair};
use rx_build::BuildError;
use rx_dense::OwnedDFA;
use rx_expr::Expr;
use rx_plan::{Form, Plan};
use rx_sparse::DFA;
use rx_wire::Order;
use std::alloc::Global;

/// Builds both tables of a plan, in the plan's form, and returns one image of them in a byte order. The forward table
/// is built first, so its error is returned first.
pub fn build_pair_image(
    alloc: Global,
    exprs: &[Expr],
    plan: &Plan,
    order: Order,
) -> Result<Vec<u8>, BuildError>
    ensures ok { IfOk result (λ image. IsPairImage (plan_of plan.now) exprs.now order image.items) }
    ensures fits { OnOk result (PlanFits (plan_of plan.now) exprs.now) }
    ensures err { IfErr result (λ error. IsRefused (PlanRefused (plan_of plan.now) exprs.now) error.kind) }
{
    match plan.form {
        Form::Dense => {
            let built = build_pair(alloc, exprs, plan)?;
            Ok(OwnedDFA::pair_image(alloc, order, &built)?)
        }
        Form::Sparse => {
            let built = build_pair(alloc, exprs, plan)?;
            Ok(DFA::<Vec<u8>>::pair_image(alloc, order, &built)?)
        }
    }
}
