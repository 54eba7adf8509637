//! The settings that a plan gives to the builders of its tables.

ghost use Rattle.std.specs.Prelude.{◌≡◌};
ghost use Rattle.rx_build.specs.Settings.{asked};
ghost use Rattle.rx_expr.specs.Settings as thompson;
ghost use Rattle.rx_plan.specs.Plan.{plan_of};
ghost use Rattle.rx_regex_builder.specs.Pairs.{both_of};
ghost use Rattle.rx_regex.specs.Settings.{settings_for, table_settings, thompson_settings};

use crate::PlanTable;
use rx_build::dense;
use rx_expr::thompson;
use rx_plan::Plan;
use rx_regex_builder::Builder;

/// The builder of a table of a plan.
pub(crate) fn table_builder(plan: &Plan, table: PlanTable) -> Builder
    ensures { both_of result ≡ settings_for (plan_of plan.now) table }
{
    let mut builder = Builder::new();
    builder.dense(table_settings(plan, table));
    builder.thompson(thompson_settings(plan));
    builder
}

/// The settings of a table.
fn table_settings(plan: &Plan, table: PlanTable) -> dense::Config
    ensures { asked result ≡ table_settings (plan_of plan.now) table }
{
    dense::Config::new()
        .accelerate(plan.accelerate)
        .minimize(plan.minimize)
        .match_kind(table.match_kind())
        .start_kind(plan.start_kind)
        .starts_for_each_pattern(plan.pattern_starts)
        .byte_classes(plan.byte_classes)
        .unicode_word_boundary(plan.unicode_word)
        .quit_bytes(plan.quit)
        .specialize_start_states(plan.mark_starts)
        .dfa_size_limit(plan.dfa_limit)
        .determinize_size_limit(plan.determinize_limit)
}

/// The settings of the NFAs. UTF-8 mode is off.
fn thompson_settings(plan: &Plan) -> thompson::Config
    ensures { thompson.asked result ≡ thompson_settings (plan_of plan.now) }
{
    thompson::Config::new()
        .utf8(false)
        .nfa_size_limit(plan.nfa_limit)
        .line_terminator(plan.line_terminator)
}
