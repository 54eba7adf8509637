//! What is collected for a column: the rows that follow, and the label.

ghost use Rattle.std.specs.Prelude.{◌≡◌, ◌<◌, ◌++◌, [], false, map, length, OnOk, IfSome};
ghost use Rattle.std.specs.Option.{option_map_or};
ghost use Rattle.rx_expr.specs.Nfa.{meaning};
ghost use Rattle.rx_stepper.specs.Leads.{without};
ghost use Rattle.rx_stepper.specs.Steps.{patterns_of, AreEmpty};
ghost use Rattle.rx_stepper.specs.Gathering.{targets_in, matches_in};

use crate::closures::Closures;
use crate::joined::Joined;
use crate::steps::ColumnSteps;
use rx_base::PatternID;
use std::alloc::AllocError;

/// The rows to which a column leads the own rows, and after them those to which it leads the lead-in's, if these go on.
pub(crate) fn targets<'s>(
    own: &'s ColumnSteps,
    lead: Option<&'s ColumnSteps>,
    column: usize,
) -> Joined<'s>
    requires column { column < length own.now.targets.items }
    requires lead_column { IfSome lead (λ steps. column < length steps.now.targets.items) }
    ensures { result.first.now ++ result.second.now
        ≡ targets_in own.now column ++ option_map_or (λ steps. targets_in steps.now column) lead.entry [] }
{
    let first = &own.targets[column];
    match lead {
        Some(lead) => Joined {
            first,
            second: &lead.targets[column],
        },
        None => Joined { first, second: &[] },
    }
}

/// Replaces the label by the patterns that match before the units of a group: those of the own rows, and then the
/// others of the lead-in's rows, if these go on.
pub(crate) fn write_label(
    closures: &Closures<'_>,
    own: &ColumnSteps,
    lead: Option<&ColumnSteps>,
    group: u8,
    label: &mut Vec<PatternID>,
) -> Result<(), AllocError>
    requires { group < 32 }
    ensures { let rows = (meaning closures.now.nfa.now).rows in
        let matches = matches_in own.now group in
        OnOk result (label.new.items
        ≡ patterns_of rows (matches
        ++ option_map_or (λ steps. without matches (matches_in steps.now group)) lead.entry [])) }
{
    label.clear();
    if !own.has_matches {
        if !may_match(lead) {
            return Ok(());
        }
    }
    let matches = &own.matches[group as usize];
    closures.add_patterns(matches, label)?;
    if let Some(lead) = lead {
        closures.add_other_patterns(&lead.matches[group as usize], matches, label)?;
    }
    Ok(())
}

/// Whether some row of the lead-in may match, if these go on.
fn may_match(lead: Option<&ColumnSteps>) -> bool
    ensures { result ≡ false → IfSome lead.entry (λ s. AreEmpty (map (λ v. v.items) s.now.matches.items)) }
{
    match lead {
        Some(steps) => steps.has_matches,
        None => false,
    }
}
