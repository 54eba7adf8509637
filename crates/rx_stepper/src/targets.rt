//! The rows that follow on all columns at once.

ghost use Rattle.std.specs.Prelude.{◌≡◌, ℕ, ◌<◌, ◌++◌, List, map, filter, length, slice_index, All, OnOk};
ghost use Rattle.std.specs.List.{flat_map};
ghost use Rattle.rx_spec.specs.Rows.{Row};
ghost use Rattle.rx_spec.specs.States.{row_at, target};
ghost use Rattle.rx_stepper.specs.Columns.{led_by, list_at, only_if, takes, Reads};

use crate::groups::Groups;
use crate::reading::Reading;
use rx_base::StateID;
use std::alloc::AllocError;

/// Adds the rows that follow some rows to the lists of the columns that they read. If a group is given, only columns of
/// that group count.
pub(crate) fn add_targets(
    reading: &Reading,
    groups: &Groups,
    rows: &[StateID],
    only: Option<u8>,
    targets: &mut [Vec<StateID>],
) -> Result<(), AllocError>
    requires reading { reading.now.count ≡ length targets.old }
    requires groups { length groups.now.of.items ≡ length targets.old }
    ensures len { length targets.new ≡ length targets.old }
    ensures lists { OnOk result ((nfa : List Row) (units : List ℕ)
        → Reads nfa units reading.now.columns.items reading.now.spans.items → (column : ℕ) → column < length units
        → let taken = takes only groups.now.of.items column in
        let leads = λ (q : ℕ). only_if taken (target (slice_index units column) (row_at nfa q)) in
        list_at (map (λ v. v.items) targets.new) column
        ≡ list_at (map (λ v. v.items) targets.old) column ++ flat_map leads rows.now) }
{
    for row in rows {
        let (columns, next) = reading.of(*row);
        push_each(columns, groups, only, next, targets)?;
    }
    Ok(())
}

/// Adds a row to the lists of these columns. If a group is given, only columns of that group count.
#[inline]
fn push_each(
    columns: &[u16],
    groups: &Groups,
    only: Option<u8>,
    next: StateID,
    targets: &mut [Vec<StateID>],
) -> Result<(), AllocError>
    requires columns { All (λ column. column < length targets.old) columns.now }
    requires groups { length groups.now.of.items ≡ length targets.old }
    ensures len { length targets.new ≡ length targets.old }
    ensures lists { OnOk result ((column : ℕ) → list_at (map (λ v. v.items) targets.new) column
        ≡ list_at (map (λ v. v.items) targets.old) column
        ++ led_by next (filter (takes only groups.now.of.items) columns.now) column) }
{
    for column in columns {
        if groups.takes(only, *column as usize) {
            targets[*column as usize].push(next)?;
        }
    }
    Ok(())
}
