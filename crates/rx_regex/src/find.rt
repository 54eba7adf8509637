//! One search of a list of expressions.

ghost use Rattle.std.specs.Prelude.{IfOk, IfSome};
ghost use Rattle.rx_spec.specs.Queries.{IsFit, LiesIn};
ghost use Rattle.rx_base.specs.Input.{query_of};
ghost use Rattle.rx_plan.specs.Plan.{plan_of};
ghost use Rattle.rx_regex.specs.Find.{Answers, IsPaired, Tells, IsFault};

use crate::error::FindFault;
use crate::tables::Built;
use rx_base::{Input, Match, MatchError, MatchErrorKind};
use rx_build::{BuildError, BuildErrorKind};
use rx_expr::Expr;
use rx_plan::Plan;
use std::alloc::Global;

/// The result of a search without an error.
#[derive(Clone, Copy, Debug)]
pub struct Answer {
    /// The match, if there is one.
    pub found: Option<Match>,
    /// The number of states of the forward table.
    pub forward_rows: u64,
    /// The number of states of the reverse table.
    pub reverse_rows: u64,
}

/// Builds the tables of a list of expressions and finds the leftmost match in an input: it begins at the least place in
/// the span where a pattern matches within the span, is of the lowest pattern there, and has the preferred end.
///
/// The plan sets how the tables are built, the line terminator, the quit bytes and the modes with start states. If it
/// minimizes, no tables that report the same have fewer states. The form of the tables, their passage through images
/// and the input's `earliest` don't change what is found.
pub fn compile_and_find(
    alloc: Global,
    exprs: &[Expr],
    plan: &Plan,
    input: &Input<'_>,
) -> Result<Answer, FindFault>
    requires { IsFit (query_of input.now) }
    ensures answers { Answers (plan_of plan.now) exprs.now (query_of input.now) result }
    // A match lies in the span that was searched, so the haystack can be sliced by it.
    ensures within { IfOk result (λ answer. IfSome answer.found (LiesIn (query_of input.now))) }
{
    let built = match Built::new(alloc, exprs, plan) {
        Ok(built) => built,
        Err(error) => return Err(build_fault(error)),
    };
    match built.search(input) {
        Ok(found) => {
            let (forward_rows, reverse_rows) = built.rows();
            Ok(Answer {
                found,
                forward_rows,
                reverse_rows,
            })
        }
        Err(error) => Err(search_fault(error)),
    }
}

/// The fault for a build that is refused.
fn build_fault(error: BuildError) -> FindFault
    ensures { IsFault error.kind result }
{
    match error.kind {
        BuildErrorKind::Memory => FindFault::Memory,
        kind => FindFault::Build(BuildError { kind }),
    }
}

/// The fault for a search that ends with an error.
fn search_fault(error: MatchError) -> FindFault
    requires { IsPaired error }
    ensures { Tells result error }
{
    match *error.kind() {
        MatchErrorKind::Quit { byte, offset } => FindFault::Quit { byte, offset },
        MatchErrorKind::UnsupportedAnchored { mode } => FindFault::Unsupported { mode },
        MatchErrorKind::PairMismatch { .. } => unreachable!("the halves of a plan agree"),
    }
}
