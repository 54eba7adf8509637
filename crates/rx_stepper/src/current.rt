//! The current state of a stepper.

ghost use Rattle.std.specs.Prelude.{◌≡◌, ℕ, List, All, true, ◌<◌, ◌≤◌, ◌+◌, ◌++◌, if◌then◌else◌, [], Some, None, map};
ghost use Rattle.std.specs.Prelude.{length, slice_index, vec_capacity, IfOk, OnOk};
ghost use Rattle.rx_spec.specs.Causes.{max_id};
ghost use Rattle.rx_base.specs.FactBits.{bits_of, facts_with};
ghost use Rattle.rx_expr.specs.Nfa.{meaning};
ghost use Rattle.rx_stepper.specs.Columns.{Reads, AreGroups};
ghost use Rattle.rx_stepper.specs.Keys.{are_closed, led_of, own_of};
ghost use Rattle.rx_stepper.specs.Steps.{Stand, AreEmpty, AreSteps, rows_in};

use crate::closures::Closures;
use crate::columns::Columns;
use crate::keys::{context_of, is_led, own_of};
use crate::steps::ColumnSteps;
use rx_base::{MatchKind, StateID};
use std::alloc::{AllocError, Global};

/// A state, and for each column what the steps of the rows in its key need.
#[derive(Drop)]
pub(crate) struct Current {
    /// Its key. Empty for the dead state.
    pub(crate) key: Vec<u32>,
    /// The rows in its key.
    rows: Vec<StateID>,
    pub(crate) steps: ColumnSteps,
    /// The number of the facts about the last unit, if the other rows of the lead-in follow those in the key.
    pub(crate) led_in: Option<u8>,
}

impl Current {
    /// The dead state.
    pub(crate) fn new(alloc: Global, columns: usize) -> Result<Current, AllocError>
        ensures key { IfOk result (λ c. c.key.items ≡ []) }
        ensures columns { IfOk result (λ c. length c.steps.targets.items ≡ columns) }
        ensures matches { IfOk result (λ c. AreEmpty (map (λ v. v.items) c.steps.matches.items)) }
        ensures targets { IfOk result (λ c. AreEmpty (map (λ v. v.items) c.steps.targets.items)) }
        ensures led_in { IfOk result (λ c. c.led_in ≡ None) }
    {
        Ok(Current {
            key: Vec::new(alloc),
            rows: Vec::new(alloc),
            steps: ColumnSteps::new(alloc, columns)?,
            led_in: None,
        })
    }

    /// Makes it the dead state.
    pub(crate) fn forget(&mut self)
        ensures key { self.new.key.items ≡ [] }
        ensures columns { length self.new.steps.targets.items ≡ length self.old.steps.targets.items }
        ensures matches { AreEmpty (map (λ v. v.items) self.new.steps.matches.items) }
        ensures targets { AreEmpty (map (λ v. v.items) self.new.steps.targets.items) }
        ensures led_in { self.new.led_in ≡ None }
    {
        self.key.clear();
        self.steps.clear();
        self.led_in = None;
    }

    /// Makes it the state of a key, and finds what the steps need.
    pub(crate) fn begin(
        &mut self,
        closures: &mut Closures<'_>,
        columns: &Columns,
        kind: MatchKind,
        key: &[u32],
        reached: &mut Vec<StateID>,
    ) -> Result<(), AllocError>
        requires context { slice_index key.now 0 < 256 }
        requires long { 3 + slice_index key.now 1 ≤ length key.now }
        requires closed { are_closed (meaning closures.old.nfa.now).rows (own_of key.now) ≡ true }
        requires reading { columns.now.reading.count ≡ length self.old.steps.targets.items }
        requires groups { length columns.now.groups.of.items ≡ length self.old.steps.targets.items }
        requires room { length (meaning closures.old.nfa.now).rows ≤ vec_capacity reached.old }
        ensures nfa { closures.new.nfa.now ≡ closures.old.nfa.now }
        ensures columns { length self.new.steps.targets.items ≡ length self.old.steps.targets.items }
        ensures room { vec_capacity reached.old ≤ vec_capacity reached.new }
        ensures key { OnOk result (self.new.key.items ≡ key.now) }
        ensures led_in { OnOk result (self.new.led_in
            ≡ (if led_of key.now then Some (bits_of (facts_with (slice_index key.now 0))) else None)) }
        ensures steps { let nfa = meaning closures.old.nfa.now in
            let reading = columns.now.reading in
            let groups = columns.now.groups.of.items in
            let own = rows_in (own_of key.now) (facts_with (slice_index key.now 0)) in
            let s : Stand = record { nfa = nfa; kind = kind; state = own } in
            OnOk result ((units : List ℕ) → Reads nfa.rows units reading.columns.items reading.spans.items
            → AreGroups nfa units groups → AreSteps s units groups
            (map (λ v. v.items) self.new.steps.targets.items) (map (λ v. v.items) self.new.steps.matches.items)) }
    {
        self.key.clear();
        self.key.extend_from_slice(key)?;
        self.rows.clear();
        push_rows(own_of(key), &mut self.rows)?;
        let last = context_of(key);
        self.led_in = if is_led(key) {
            Some(last.to_bits())
        } else {
            None
        };
        self.steps
            .find(closures, columns, kind, &self.rows, last, reached)
    }
}

/// Adds the rows that numbers name.
fn push_rows(numbers: &[u32], rows: &mut Vec<StateID>) -> Result<(), AllocError>
    requires { All (λ n. n ≤ max_id) numbers.now }
    ensures { OnOk result (rows.new.items ≡ rows.old.items ++ numbers.now) }
{
    for number in numbers {
        rows.push(StateID::must(*number as usize))?;
    }
    Ok(())
}
