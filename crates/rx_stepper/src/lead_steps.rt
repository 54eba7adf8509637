//! What the rows of the lead-in add to the steps of states.

ghost use Rattle.std.specs.Prelude.{◌≡◌, ℕ, List, true, false, ◌<◌, ◌≤◌, map, length, vec_capacity, All, IfOk, OnOk};
ghost use Rattle.rx_expr.specs.Nfa.{meaning};
ghost use Rattle.rx_stepper.specs.Columns.{Reads, AreGroups};
ghost use Rattle.rx_stepper.specs.Keys.{are_closed};
ghost use Rattle.rx_stepper.specs.Steps.{Stand, AreSteps, rows_in};

use crate::closures::Closures;
use crate::columns::Columns;
use crate::steps::ColumnSteps;
use rx_base::{Facts, MatchKind, StateID};
use std::alloc::{AllocError, Global};

/// The number of contexts: one for each set of facts.
const CONTEXTS: usize = 32;

/// What the steps of the lead-in's rows need, for one set of facts about the last unit.
#[derive(Drop)]
pub(crate) struct LeadSteps {
    pub(crate) steps: ColumnSteps,
    /// Whether they are found. They are found when they are first needed.
    pub(crate) are_found: bool,
}

impl LeadSteps {
    /// Steps that aren't found yet.
    fn new(alloc: Global, columns: usize) -> Result<LeadSteps, AllocError>
        ensures columns { IfOk result (λ l. length l.steps.targets.items ≡ columns) }
        ensures none { IfOk result (λ l. l.are_found ≡ false) }
    {
        Ok(LeadSteps {
            steps: ColumnSteps::new(alloc, columns)?,
            are_found: false,
        })
    }

    /// Steps for all contexts, none of them found yet.
    pub(crate) fn of_contexts(alloc: Global, columns: usize) -> Result<Vec<LeadSteps>, AllocError>
        ensures len { IfOk result (λ v. length v.items ≡ 32) }
        ensures columns { IfOk result (λ v. All (λ l. length l.steps.targets.items ≡ columns) v.items) }
        ensures none { IfOk result (λ v. All (λ l. l.are_found ≡ false) v.items) }
    {
        let mut leads = Vec::with_capacity(alloc, CONTEXTS)?;
        for context in 0..CONTEXTS {
            leads.push(LeadSteps::new(alloc, columns)?)?;
        }
        Ok(leads)
    }

    /// Finds the steps unless they are found already.
    pub(crate) fn find(
        &mut self,
        closures: &mut Closures<'_>,
        columns: &Columns,
        kind: MatchKind,
        rows: &[StateID],
        last: Facts,
        reached: &mut Vec<StateID>,
    ) -> Result<(), AllocError>
        requires closed { are_closed (meaning closures.old.nfa.now).rows rows.now ≡ true }
        requires reading { columns.now.reading.count ≡ length self.old.steps.targets.items }
        requires groups { length columns.now.groups.of.items ≡ length self.old.steps.targets.items }
        requires room { length (meaning closures.old.nfa.now).rows ≤ vec_capacity reached.old }
        ensures nfa { closures.new.nfa.now ≡ closures.old.nfa.now }
        ensures columns { length self.new.steps.targets.items ≡ length self.old.steps.targets.items }
        ensures room { vec_capacity reached.old ≤ vec_capacity reached.new }
        ensures found { OnOk result (self.new.are_found ≡ true) }
        ensures stays { self.old.are_found ≡ true → self.new.are_found ≡ true }
        ensures steps { let nfa = meaning closures.old.nfa.now in
            let reading = columns.now.reading in
            let groups = columns.now.groups.of.items in
            let s : Stand = record { nfa = nfa; kind = kind; state = rows_in rows.now last } in
            (units : List ℕ) → Reads nfa.rows units reading.columns.items reading.spans.items
            → AreGroups nfa units groups
            → (self.old.are_found ≡ true → AreSteps s units groups
            (map (λ v. v.items) self.old.steps.targets.items) (map (λ v. v.items) self.old.steps.matches.items))
            → self.new.are_found ≡ true → AreSteps s units groups
            (map (λ v. v.items) self.new.steps.targets.items) (map (λ v. v.items) self.new.steps.matches.items) }
    {
        if self.are_found {
            return Ok(());
        }
        self.steps
            .find(closures, columns, kind, rows, last, reached)?;
        self.are_found = true;
        Ok(())
    }
}
