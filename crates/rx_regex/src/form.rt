//! The two tables of a plan, in either form of tables.

ghost use Rattle.std.specs.Prelude.{◌≡◌, IfOk, IfErr, OnOk, List};
ghost use Rattle.rx_spec.specs.Expressions.{Expression};
ghost use Rattle.rx_plan.specs.Plans.{Plan as SearchPlan};
ghost use Rattle.rx_spec.specs.declared.Form.{Form};
ghost use Rattle.rx_expr.specs.Refusals.{IsRefused};
ghost use Rattle.rx_image.specs.Pairs.{HaveSamePatterns, Pair, text};
ghost use Rattle.rx_image.specs.Tables.{AreSound, pair_of};
ghost use Rattle.rx_plan.specs.Plan.{plan_of};
ghost use Rattle.rx_regex.specs.Find.{PlanFits, PlanRefused};
ghost use Rattle.rx_regex.specs.Images.{IsImage};
ghost use Rattle.rx_regex.specs.Pairs.{AreTables};
ghost use Rattle.rx_regex.specs.PlanTables.{TableFits, TableRefused};
ghost use Rattle.rx_regex.specs.Written.{AreReadBack, AreWritable};
ghost use Rattle.rx_regex.specs.declared.plan_table.PlanTable.{PlanTable};

use crate::PlanTable;
use rx_build::BuildError;
use rx_expr::Expr;
use rx_image::{Tables, read_pair};
use rx_pair::Regex;
use rx_plan::{Passage, Plan};
use rx_search::Automaton;
use rx_wire::Order;
use std::alloc::{AllocError, Global};

/// A form of tables: how one table is built, written and read.
pub(crate) trait TableForm: Automaton {
    /// The form.
    ghost form: { Form };

    /// Two tables as a pair.
    ghost pair: { Self → Self → Pair };

    /// A table is a plan's table of some expressions, and can be written and read back.
    ghost IsTable: { SearchPlan → PlanTable → List Expression → Self → Type 0 };

    /// Builds a table by the settings of a plan.
    fn build(
        alloc: Global,
        exprs: &[Expr],
        plan: &Plan,
        which: PlanTable,
    ) -> Result<Self, BuildError>
        requires { plan.now.form ≡ form }
        ensures ok { IfOk result (IsTable (plan_of plan.now) which exprs.now) }
        ensures sound { IfOk result Self.IsSound }
        ensures fits { OnOk result (TableFits (plan_of plan.now) which exprs.now) }
        ensures err { IfErr result (λ error.
            IsRefused (TableRefused (plan_of plan.now) which exprs.now) error.kind) };

    /// The image of a table. The only error is that memory runs out.
    fn image(&self, alloc: Global, order: Order) -> Result<Vec<u8>, AllocError>
        ensures { (p : SearchPlan) (which : PlanTable) (es : List Expression) → IsTable p which es self.now
            → IfOk result (λ image. IsImage p which es order image.items) };

    /// Writes a table as an image and reads it back. If it is a plan's table, the only error is that memory runs out.
    fn read_back(&self, alloc: Global) -> Result<Self, AllocError>
        ensures { (p : SearchPlan) (which : PlanTable) (es : List Expression) → IsTable p which es self.now
            → IfOk result (λ back. back ≡ self.now) };

    /// One image of two tables. The only error is that memory runs out.
    fn pair_image(alloc: Global, order: Order, both: &Regex<Self>) -> Result<Vec<u8>, AllocError>
        requires { HaveSamePatterns (pair both.now.forward both.now.reverse) }
        ensures { IfOk result (λ image. image.items ≡ text order (pair both.now.forward both.now.reverse)) };

    /// The tables of a pair image, in memory of their own. If they have this form, the only error is that memory runs
    /// out.
    fn own(alloc: Global, tables: Tables<'_>) -> Result<Regex<Self>, AllocError>
        requires { AreSound tables }
        ensures { IfOk result (λ back. pair back.forward back.reverse ≡ pair_of tables.entry) };

    /// Two tables of a plan are its pair, which can be written and read back.
    ghost are_tables: { (p : SearchPlan) (es : List Expression) (f r : Self) → IsTable p PlanTable.Forward es f
        → IsTable p PlanTable.Reverse es r → AreTables p es (pair f r) × AreWritable (pair f r) };
}

/// Builds both tables and reads them back if the plan asks for that. The forward table is built first, so its error is
/// returned first.
pub(crate) fn planned_pair<T: TableForm>(
    alloc: Global,
    exprs: &[Expr],
    plan: &Plan,
) -> Result<Regex<T>, BuildError>
    requires { plan.now.form ≡ T.form }
    ensures ok { IfOk result (λ pair. AreTables (plan_of plan.now) exprs.now (T.pair pair.forward pair.reverse)) }
    ensures fits { OnOk result (PlanFits (plan_of plan.now) exprs.now) }
    ensures err { IfErr result (λ error. IsRefused (PlanRefused (plan_of plan.now) exprs.now) error.kind) }
{
    let built = build_pair(alloc, exprs, plan)?;
    match plan.passage {
        Passage::Direct | Passage::Bytes => Ok(built),
        Passage::Pair => Ok(read_pair_back(alloc, &built)?),
    }
}

/// Builds both tables. `Passage::Pair` has no effect on them.
pub(crate) fn build_pair<T: TableForm>(
    alloc: Global,
    exprs: &[Expr],
    plan: &Plan,
) -> Result<Regex<T>, BuildError>
    requires { plan.now.form ≡ T.form }
    ensures ok { IfOk result (λ pair. AreTables (plan_of plan.now) exprs.now (T.pair pair.forward pair.reverse)) }
    ensures written { IfOk result (λ pair. AreReadBack (T.pair pair.forward pair.reverse)) }
    ensures fits { OnOk result (PlanFits (plan_of plan.now) exprs.now) }
    ensures err { IfErr result (λ error. IsRefused (PlanRefused (plan_of plan.now) exprs.now) error.kind) }
{
    let forward = build_table::<T>(alloc, exprs, plan, PlanTable::Forward)?;
    let reverse = build_table::<T>(alloc, exprs, plan, PlanTable::Reverse)?;
    Ok(Regex::new(forward, reverse))
}

/// Builds one table of a plan. `Passage::Pair` has no effect on it.
pub(crate) fn build_table<T: TableForm>(
    alloc: Global,
    exprs: &[Expr],
    plan: &Plan,
    which: PlanTable,
) -> Result<T, BuildError>
    requires { plan.now.form ≡ T.form }
    ensures ok { IfOk result (T.IsTable (plan_of plan.now) which exprs.now) }
    ensures sound { IfOk result T.IsSound }
    ensures fits { OnOk result (TableFits (plan_of plan.now) which exprs.now) }
    ensures err { IfErr result (λ error.
        IsRefused (TableRefused (plan_of plan.now) which exprs.now) error.kind) }
{
    let table = T::build(alloc, exprs, plan, which)?;
    match plan.passage {
        Passage::Direct | Passage::Pair => Ok(table),
        Passage::Bytes => Ok(table.read_back(alloc)?),
    }
}

/// Writes a pair as one image and reads it back. The only error is that memory runs out.
fn read_pair_back<T: TableForm>(alloc: Global, pair: &Regex<T>) -> Result<Regex<T>, AllocError>
    requires { AreReadBack (T.pair pair.now.forward pair.now.reverse) }
    ensures { IfOk result (λ back. T.pair back.forward back.reverse ≡ T.pair pair.now.forward pair.now.reverse) }
{
    let image = T::pair_image(alloc, Order::Little, pair)?;
    match read_pair(alloc, &image) {
        Ok((tables, _)) => T::own(alloc, tables),
        Err(_) => Err(AllocError),
    }
}
