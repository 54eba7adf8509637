//! What the steps of some rows need on each column.

ghost use Rattle.std.specs.Prelude.{◌≡◌, ℕ, List, true, ◌<◌, ◌≤◌, ◌≢◌, ◌++◌, Some, map, length, slice_index};
ghost use Rattle.std.specs.Prelude.{slice_index_or, false, vec_capacity, IfOk, OnOk};
ghost use Rattle.std.specs.List.{flat_map};
ghost use Rattle.rx_spec.specs.States.{row_at, cut, target};
ghost use Rattle.rx_spec.specs.Causes.{id_count};
ghost use Rattle.rx_base.specs.FactBits.{facts_with};
ghost use Rattle.rx_expr.specs.Nfa.{meaning};
ghost use Rattle.rx_stepper.specs.Columns.{list_at, only_if, takes, Reads, AreGroups};
ghost use Rattle.rx_stepper.specs.Keys.{are_closed};
ghost use Rattle.rx_stepper.specs.Steps.{Stand, AreEmpty, AreSteps, going_by, matches_of, rows_in};

use crate::closures::{Closures, Passing};
use crate::columns::Columns;
use crate::groups::GROUPS;
use crate::targets::add_targets;
use rx_base::{Facts, MatchKind, StateID};
use std::alloc::{AllocError, Global};

/// What the steps of some rows need on each column.
#[derive(Drop)]
pub(crate) struct ColumnSteps {
    /// For each group of columns, the rows that match before its units and go on.
    pub(crate) matches: Vec<Vec<StateID>>,
    /// For each column, the rows that follow those that go on before its unit and read it.
    pub(crate) targets: Vec<Vec<StateID>>,
    /// Whether some row may match. If not, the lists of matches are all empty.
    pub(crate) has_matches: bool,
    ghost matches_len: { length matches.items ≡ 32 },
    ghost no_matches: { has_matches ≡ false → AreEmpty (map (λ v. v.items) matches.items) },
}

impl ColumnSteps {
    /// The steps of no rows.
    pub(crate) fn new(alloc: Global, columns: usize) -> Result<ColumnSteps, AllocError>
        ensures columns { IfOk result (λ s. length s.targets.items ≡ columns) }
        ensures matches { IfOk result (λ s. AreEmpty (map (λ v. v.items) s.matches.items)) }
        ensures targets { IfOk result (λ s. AreEmpty (map (λ v. v.items) s.targets.items)) }
    {
        let mut matches = Vec::with_capacity(alloc, GROUPS)?;
        for group in 0..GROUPS {
            matches.push(Vec::new(alloc))?;
        }
        let mut targets = Vec::with_capacity(alloc, columns)?;
        for column in 0..columns {
            targets.push(Vec::new(alloc))?;
        }
        Ok(ColumnSteps {
            matches,
            targets,
            has_matches: false,
        })
    }

    /// Makes them the steps of no rows.
    pub(crate) fn clear(&mut self)
        ensures columns { length self.new.targets.items ≡ length self.old.targets.items }
        ensures matches { AreEmpty (map (λ v. v.items) self.new.matches.items) }
        ensures targets { AreEmpty (map (λ v. v.items) self.new.targets.items) }
    {
        if self.has_matches {
            clear_lists(&mut self.matches);
            self.has_matches = false;
        }
        clear_lists(&mut self.targets);
    }

    /// Finds the steps of some rows, with these facts about the last unit.
    pub(crate) fn find(
        &mut self,
        closures: &mut Closures<'_>,
        columns: &Columns,
        kind: MatchKind,
        rows: &[StateID],
        last: Facts,
        reached: &mut Vec<StateID>,
    ) -> Result<(), AllocError>
        requires closed { are_closed (meaning closures.old.nfa.now).rows rows.now ≡ true }
        requires reading { columns.now.reading.count ≡ length self.old.targets.items }
        requires groups { length columns.now.groups.of.items ≡ length self.old.targets.items }
        requires room { length (meaning closures.old.nfa.now).rows ≤ vec_capacity reached.old }
        ensures nfa { closures.new.nfa.now ≡ closures.old.nfa.now }
        ensures columns { length self.new.targets.items ≡ length self.old.targets.items }
        ensures room { vec_capacity reached.old ≤ vec_capacity reached.new }
        ensures steps { let nfa = meaning closures.old.nfa.now in
            let reading = columns.now.reading in
            let groups = columns.now.groups.of.items in
            let s : Stand = record { nfa = nfa; kind = kind; state = rows_in rows.now last } in
            OnOk result ((units : List ℕ) → Reads nfa.rows units reading.columns.items reading.spans.items
            → AreGroups nfa units groups → AreSteps s units groups
            (map (λ v. v.items) self.new.targets.items) (map (λ v. v.items) self.new.matches.items)) }
    {
        self.clear();
        if !closures.has_look(rows) {
            return self.add_plain(closures, columns, kind, rows);
        }
        for group in 0..32 {
            if columns.groups.has(group) {
                self.add_group(closures, columns, kind, rows, last, group, reached)?;
            }
        }
        Ok(())
    }
}

impl ColumnSteps {
    /// Adds the steps of rows of which none asserts, so that the same rows go on before every unit.
    fn add_plain(
        &mut self,
        closures: &Closures<'_>,
        columns: &Columns,
        kind: MatchKind,
        rows: &[StateID],
    ) -> Result<(), AllocError>
        requires reading { columns.now.reading.count ≡ length self.old.targets.items }
        requires groups { length columns.now.groups.of.items ≡ length self.old.targets.items }
        requires matches { AreEmpty (map (λ v. v.items) self.old.matches.items) }
        ensures columns { length self.new.targets.items ≡ length self.old.targets.items }
        ensures matches { let nfa = meaning closures.now.nfa.now in
            OnOk result ((group : ℕ) → slice_index_or columns.now.groups.used.items group false ≡ true
            → list_at (map (λ v. v.items) self.new.matches.items) group
            ≡ matches_of nfa.rows (cut kind nfa.rows rows.now)) }
        ensures targets { let nfa = meaning closures.now.nfa.now in
            let reading = columns.now.reading in
            OnOk result ((units : List ℕ) → Reads nfa.rows units reading.columns.items reading.spans.items
            → (column : ℕ) → column < length units
            → let leads = λ (q : ℕ). target (slice_index units column) (row_at nfa.rows q) in
            list_at (map (λ v. v.items) self.new.targets.items) column
            ≡ list_at (map (λ v. v.items) self.old.targets.items) column
            ++ flat_map leads (cut kind nfa.rows rows.now)) }
    {
        let going = closures.cut(kind, rows);
        add_targets(
            &columns.reading,
            &columns.groups,
            going,
            None,
            &mut self.targets,
        )?;
        if !closures.has_match(going) {
            return Ok(());
        }
        self.has_matches = true;
        for group in 0..32 {
            if columns.groups.has(group) {
                closures.add_matches(going, &mut self.matches[group as usize])?;
            }
        }
        Ok(())
    }

    /// Adds the steps on the columns of a group, whose facts decide the assertions.
    fn add_group(
        &mut self,
        closures: &mut Closures<'_>,
        columns: &Columns,
        kind: MatchKind,
        rows: &[StateID],
        last: Facts,
        group: u8,
        reached: &mut Vec<StateID>,
    ) -> Result<(), AllocError>
        requires group { group < 32 }
        requires reading { columns.now.reading.count ≡ length self.old.targets.items }
        requires groups { length columns.now.groups.of.items ≡ length self.old.targets.items }
        requires room { length (meaning closures.old.nfa.now).rows ≤ vec_capacity reached.old }
        ensures nfa { closures.new.nfa.now ≡ closures.old.nfa.now }
        ensures room { vec_capacity reached.old ≤ vec_capacity reached.new }
        ensures columns { length self.new.targets.items ≡ length self.old.targets.items }
        ensures others { OnOk result ((place : ℕ) → place ≢ group
            → list_at (map (λ v. v.items) self.new.matches.items) place
            ≡ list_at (map (λ v. v.items) self.old.matches.items) place) }
        ensures matches { let nfa = meaning closures.old.nfa.now in
            let going = going_by nfa kind last (facts_with group) rows.now in
            OnOk result (list_at (map (λ v. v.items) self.new.matches.items) group
            ≡ list_at (map (λ v. v.items) self.old.matches.items) group ++ matches_of nfa.rows going) }
        ensures few { OnOk result (let nfa = meaning closures.old.nfa.now in
            length (matches_of nfa.rows (going_by nfa kind last (facts_with group) rows.now)) ≤ id_count) }
        ensures targets { let nfa = meaning closures.old.nfa.now in
            let reading = columns.now.reading in
            let going = going_by nfa kind last (facts_with group) rows.now in
            OnOk result ((units : List ℕ) → Reads nfa.rows units reading.columns.items reading.spans.items
            → (column : ℕ) → column < length units
            → let taken = takes (Some group) columns.now.groups.of.items column in
            let leads = λ (q : ℕ). only_if taken (target (slice_index units column) (row_at nfa.rows q)) in
            list_at (map (λ v. v.items) self.new.targets.items) column
            ≡ list_at (map (λ v. v.items) self.old.targets.items) column ++ flat_map leads going) }
    {
        let passing = Passing::Tested {
            last,
            next: Facts::from_bits(group),
            direction: closures.nfa.direction(),
        };
        closures.list(rows, &passing, reached);
        let going = closures.cut(kind, reached);
        self.has_matches = true;
        closures.add_matches(going, &mut self.matches[group as usize])?;
        add_targets(
            &columns.reading,
            &columns.groups,
            going,
            Some(group),
            &mut self.targets,
        )
    }
}

/// Empties each list.
fn clear_lists(lists: &mut [Vec<StateID>])
    ensures len { length lists.new ≡ length lists.old }
    ensures empty { AreEmpty (map (λ v. v.items) lists.new) }
{
    for list in lists.iter_mut() {
        list.clear();
    }
}
