//! Images of the tables of a plan.

ghost use Rattle.std.specs.Prelude.{◌≡◌, IfOk, IfErr, OnOk};
ghost use Rattle.rx_expr.specs.Refusals.{IsRefused};
ghost use Rattle.rx_plan.specs.Plan.{plan_of};
ghost use Rattle.rx_regex.specs.Images.{IsImage};
ghost use Rattle.rx_regex.specs.PlanTables.{TableFits, TableRefused};

use crate::PlanTable;
use crate::form::{TableForm, build_table};
use rx_build::BuildError;
use rx_dense::OwnedDFA;
use rx_expr::Expr;
use rx_plan::{Form, Plan};
use rx_sparse::DFA;
use rx_wire::Order;
use std::alloc::Global;

/// Builds one table of a plan, in the plan's form, and returns its image in a byte order.
pub fn build_image(
    alloc: Global,
    exprs: &[Expr],
    plan: &Plan,
    which: PlanTable,
    order: Order,
) -> Result<Vec<u8>, BuildError>
    ensures ok { IfOk result (λ image. IsImage (plan_of plan.now) which exprs.now order image.items) }
    ensures fits { OnOk result (TableFits (plan_of plan.now) which exprs.now) }
    ensures err { IfErr result (λ error.
        IsRefused (TableRefused (plan_of plan.now) which exprs.now) error.kind) }
{
    match plan.form {
        Form::Dense => {
            let table: OwnedDFA = build_table(alloc, exprs, plan, which)?;
            Ok(table.image(alloc, order)?)
        }
        Form::Sparse => {
            let table: DFA<Vec<u8>> = build_table(alloc, exprs, plan, which)?;
            Ok(table.image(alloc, order)?)
        }
    }
}
