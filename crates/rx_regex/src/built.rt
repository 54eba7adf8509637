//! Building and searching the two tables of a plan.

ghost use Rattle.std.specs.Prelude.{◌≡◌, All, IfOk, IfErr, IfSome, OnOk, List};
ghost use Rattle.rx_spec.specs.Bytes.{AreBytes};
ghost use Rattle.rx_spec.specs.Expressions.{Expression};
ghost use Rattle.rx_spec.specs.Iterating.{iterate};
ghost use Rattle.rx_plan.specs.Plans.{Plan as SearchPlan, outcome};
ghost use Rattle.rx_spec.specs.Queries.{IsFit, LiesIn};
ghost use Rattle.rx_base.specs.Input.{query_of};
ghost use Rattle.rx_expr.specs.Refusals.{IsRefused};
ghost use Rattle.rx_pair.specs.Matches.{items};
ghost use Rattle.rx_plan.specs.Plan.{plan_of};
ghost use Rattle.rx_regex.specs.Find.{IsPaired, PlanFits, PlanRefused};
ghost use Rattle.rx_regex.specs.Rows.{HaveRows};
ghost use Rattle.rx_regex.specs.Pairs.{whole};
ghost use Rattle.rx_regex.specs.Tables.{IsOf};

use crate::built_matches::{BuiltMatches, FormMatches};
use crate::form::planned_pair;
use crate::tables::{Built, Tables};
use rx_base::{Input, Match, MatchError};
use rx_build::BuildError;
use rx_expr::Expr;
use rx_plan::{Form, Plan};
use std::alloc::Global;

impl Built {
    /// Builds the tables of a plan, in its form. The forward table is built first, so its error is returned first.
    pub fn new(alloc: Global, exprs: &[Expr], plan: &Plan) -> Result<Built, BuildError>
        ensures ok { IfOk result (IsOf (plan_of plan.now) exprs.now) }
        ensures fits { OnOk result (PlanFits (plan_of plan.now) exprs.now) }
        ensures err { IfErr result (λ error. IsRefused (PlanRefused (plan_of plan.now) exprs.now) error.kind) }
    {
        match plan.form {
            Form::Dense => {
                let tables = Tables::Dense(planned_pair(alloc, exprs, plan)?);
                Ok(Built { tables })
            }
            Form::Sparse => {
                let tables = Tables::Sparse(planned_pair(alloc, exprs, plan)?);
                Ok(Built { tables })
            }
        }
    }

    /// The leftmost match of an input, as the plan and the expressions define it. Ignores the input's `earliest`. The
    /// error is never `PairMismatch`.
    pub fn search(&self, input: &Input<'_>) -> Result<Option<Match>, MatchError>
        requires { IsFit (query_of input.now) }
        ensures answer { (p : SearchPlan) (es : List Expression) → IsOf p es self.now
            → result ≡ outcome p es (query_of input.now) }
        // A match lies in the span.
        ensures within { IfOk result (λ found. IfSome found (LiesIn (query_of input.now))) }
        ensures paired { IfErr result IsPaired }
    {
        let input = whole_search(input);
        match &self.tables {
            Tables::Dense(pair) => pair.try_search(&input),
            Tables::Sparse(pair) => pair.try_search(&input),
        }
    }

    /// The matches of an input one after another. Each begins where the last one ended or later, and an empty match
    /// where the last one ended is left out. An error is the last item.
    pub fn find_iter<'r, 'h>(&'r self, input: &Input<'h>) -> BuiltMatches<'r, 'h>
        requires { IsFit (query_of input.now) }
        ensures value { (p : SearchPlan) (es : List Expression) → IsOf p es self.now
            → result ≡ items (iterate (outcome p es) (query_of input.now)) }
        // Each match lies in the span.
        ensures within { All (λ item. IfOk item (LiesIn (query_of input.now))) result }
    {
        let input = whole_search(input);
        match &self.tables {
            Tables::Dense(pair) => {
                let matches = FormMatches::Dense(pair.find_iter(&input));
                BuiltMatches { matches }
            }
            Tables::Sparse(pair) => {
                let matches = FormMatches::Sparse(pair.find_iter(&input));
                BuiltMatches { matches }
            }
        }
    }

    /// The number of states of the forward and of the reverse table.
    pub fn rows(&self) -> (u64, u64)
        ensures { (p : SearchPlan) (es : List Expression) → IsOf p es self.now → HaveRows p es result.0 result.1 }
    {
        let (forward, reverse) = match &self.tables {
            Tables::Dense(pair) => (pair.forward().state_len(), pair.reverse().state_len()),
            Tables::Sparse(pair) => (pair.forward().state_len(), pair.reverse().state_len()),
        };
        (forward as u64, reverse as u64)
    }
}

/// The input without `earliest`: a plan's search returns the preferred end, not the first that it reads.
fn whole_search<'h>(input: &Input<'h>) -> Input<'h>
    requires { IsFit (query_of input.now) }
    ensures asked { query_of result ≡ whole (query_of input.now) }
    ensures fits { IsFit (query_of result) }
    ensures bytes { AreBytes (query_of input.now).haystack }
{
    Input::new(input.haystack())
        .span(input.get_span())
        .anchored(input.get_anchored())
}
