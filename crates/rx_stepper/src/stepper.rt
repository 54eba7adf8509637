//! The stepper.

ghost use Rattle.std.specs.Prelude.{◌≡◌, ℕ, ◌<◌, ◌≤◌, ◌^◌, true, false, MatchBool, Some, IfOk, OnOk, IfSome, length};
ghost use Rattle.std.specs.Prelude.{slice_get, slice_index, vec_capacity};
ghost use Rattle.std.specs.Option.{option_copied};
ghost use Rattle.rx_spec.specs.Builds.{is_dead_state};
ghost use Rattle.rx_spec.specs.Sizes.{state_size};
ghost use Rattle.rx_spec.specs.States.{start_state};
ghost use Rattle.rx_base.specs.ByteClasses.{alphabet_len};
ghost use Rattle.rx_expr.specs.Nfa.{meaning};
ghost use Rattle.rx_stepper.specs.Fits.{Fits, FitsCurrent, FitsLead, table_of};
ghost use Rattle.rx_stepper.specs.Gathering.{IsLeadOf};
ghost use Rattle.rx_base.specs.FactBits.{bits_of, facts_with};
ghost use Rattle.rx_stepper.specs.Keys.{label_of, led_of};

use crate::closures::Closures;
use crate::columns::Columns;
use crate::current::Current;
use crate::joined::Joined;
use crate::lead_in::LeadIn;
use crate::lead_steps::LeadSteps;
use crate::matches::goes_on;
use crate::steps::ColumnSteps;
use crate::{gathered, keys};
use rx_base::{ByteClasses, Facts, MatchKind, PatternID, Start, StateID};
use rx_expr::thompson::NFA;
use std::alloc::{AllocError, Global};

/// Steps the states of an NFA. Keeps its memory from one state to the next.
///
/// Contracts see it as a `Stepping`, by `stepping_of`.
#[derive(Drop)]
pub struct Stepper<'n> {
    closures: Closures<'n>,
    columns: Columns,
    kind: MatchKind,
    classes: ByteClasses,
    lead_in: LeadIn,
    /// What the steps of the lead-in's rows need, for each set of facts about the last unit.
    leads: Vec<LeadSteps>,
    current: Current,
    /// Memory for a label.
    label: Vec<PatternID>,
    /// Memory for a closure.
    reached: Vec<StateID>,
    ghost fits: { Fits (meaning closures.nfa.now) classes columns },
    ghost fits_lead: { FitsLead (table_of (meaning closures.nfa.now) kind classes columns) lead_in leads.items },
    ghost fits_current: { FitsCurrent (table_of (meaning closures.nfa.now) kind classes columns) leads.items current },
    ghost room: { length (meaning closures.nfa.now).rows ≤ vec_capacity reached },
}

impl<'n> Stepper<'n> {
    ghost use Rattle.rx_stepper.specs.Steppers.{stepping_of};
    ghost use Rattle.rx_stepper.specs.declared.lead_steps.LeadSteps.{LeadSteps};
    ghost use Rattle.rx_stepper.specs.Stepping.{HasOneKeyEach, IsAlone, IsKeyOf, SpellStates, stepped};

    /// A stepper of an NFA for a table with these classes.
    #[tactic(auto, unfolding(crate::specs::Steppers::stepping_of))]
    pub fn new(
        alloc: Global,
        nfa: &'n NFA,
        kind: MatchKind,
        classes: &ByteClasses,
    ) -> Result<Stepper<'n>, AllocError>
        ensures nfa { IfOk result (λ s. (stepping_of s).nfa ≡ meaning nfa.now) }
        ensures kind { IfOk result (λ s. (stepping_of s).kind ≡ kind) }
        ensures classes { IfOk result (λ s. (stepping_of s).classes ≡ classes.now) }
        ensures spells { IfOk result (λ s. SpellStates (stepping_of s)) }
        ensures one_key { IfOk result (λ s. HasOneKeyEach (stepping_of s)) }
    {
        let columns = Columns::new(alloc, nfa, classes)?;
        let mut closures = Closures::new(alloc, nfa)?;
        let mut reached = Vec::with_capacity(alloc, nfa.rows().len())?;
        let lead_in = LeadIn::new(alloc, &mut closures, &mut reached)?;
        let width = classes.alphabet_len();
        let leads = LeadSteps::of_contexts(alloc, width)?;
        let current = Current::new(alloc, width)?;
        Ok(Stepper {
            closures,
            columns,
            kind,
            classes: *classes,
            lead_in,
            leads,
            current,
            label: Vec::new(alloc),
            reached,
        })
    }

    /// Writes the key of the start state for a row of the NFA and a start context. Returns whether there is a key: the
    /// dead state has none.
    #[tactic(auto, unfolding(crate::specs::Steppers::stepping_of))]
    pub fn start(
        &mut self,
        row: StateID,
        start: Start,
        key: &mut Vec<u32>,
    ) -> Result<bool, AllocError>
        ensures kept { stepping_of self.new ≡ stepping_of self.old }
        ensures key { IfOk result (λ goes_on. MatchBool goes_on
            (IsKeyOf (stepping_of self.old) key.new.items (start_state (stepping_of self.old).nfa row start))
            (is_dead_state (start_state (stepping_of self.old).nfa row start) ≡ true)) }
    {
        let nfa = self.closures.nfa;
        let known = Facts::of_start(nfa.line_terminator(), start);
        let asked = nfa.asked_facts().intersect(known).to_bits();
        self.lead_in.write_key(
            &mut self.closures,
            Joined {
                first: &[row],
                second: &[],
            },
            asked,
            &[],
            &mut self.reached,
            key,
        )
    }

    /// Makes the state of a key the current one.
    #[tactic(auto, unfolding(crate::specs::Steppers::stepping_of))]
    pub fn begin(&mut self, key: &[u32]) -> Result<(), AllocError>
        requires { (stepping_of self.old).is_key key.now ≡ true }
        ensures current { OnOk result ((stepping_of self.new).current ≡ (stepping_of self.old).state_of key.now) }
        ensures kept { stepping_of self.new
            ≡ record (stepping_of self.old) {
              current = (stepping_of self.new).current;
              led_in = (stepping_of self.new).led_in;
            } }
    {
        self.find_lead(key)?;
        match self.current.begin(
            &mut self.closures,
            &self.columns,
            self.kind,
            key,
            &mut self.reached,
        ) {
            Ok(()) => Ok(()),
            Err(error) => {
                self.current.forget();
                Err(error)
            }
        }
    }

    /// Finds what the steps of the lead-in's rows need if they follow a key's own rows.
    #[tactic(auto, unfolding(crate::specs::Steppers::stepping_of))]
    fn find_lead(&mut self, key: &[u32]) -> Result<(), AllocError>
        requires { slice_index key.now 0 < 256 }
        ensures kept { stepping_of self.new ≡ stepping_of self.old }
        ensures found { OnOk result (led_of key.now ≡ true → (lead : LeadSteps)
            → slice_get self.new.leads.items (bits_of (facts_with (slice_index key.now 0))) ≡ Some lead
            → lead.are_found ≡ true) }
    {
        if !keys::is_led(key) {
            return Ok(());
        }
        let last = keys::context_of(key);
        self.leads[last.to_bits() as usize].find(
            &mut self.closures,
            &self.columns,
            self.kind,
            &self.lead_in.rows,
            last,
            &mut self.reached,
        )
    }

    /// The number of the facts about the last unit if the lead-in's rows follow the current state's own rows, otherwise
    /// `None`.
    #[tactic(auto, unfolding(crate::specs::Steppers::stepping_of))]
    pub fn led_in(&self) -> Option<u8>
        ensures { result ≡ (stepping_of self.now).led_in }
    {
        self.current.led_in
    }

    /// Whether some of the current state's own rows goes on by a column or matches before it. If none does, the column
    /// leads where the lead-in's rows lead alone.
    #[tactic(auto, unfolding(crate::specs::Steppers::stepping_of))]
    pub fn has_own(&self, column: usize) -> bool
        requires { column < alphabet_len (stepping_of self.now).classes }
        ensures { result ≡ false → IsAlone (stepping_of self.now) column }
    {
        let own = &self.current.steps;
        if !own.targets[column].is_empty() {
            return true;
        }
        if !own.has_matches {
            return false;
        }
        let group = self.columns.groups.of(column);
        !own.matches[group as usize].is_empty()
    }

    /// The first column from `from` on for which `has_own` holds, or the number of columns if there is none.
    #[tactic(auto, unfolding(crate::specs::Steppers::stepping_of))]
    pub fn next_own(&self, from: usize) -> usize
        requires { from ≤ alphabet_len (stepping_of self.now).classes }
        ensures from { from ≤ result }
        ensures within { result ≤ alphabet_len (stepping_of self.now).classes }
        ensures alone { (column : ℕ) → from ≤ column → column < result → IsAlone (stepping_of self.now) column }
    {
        let columns = self.current.steps.targets.len();
        for column in from..columns {
            if self.has_own(column) {
                return column;
            }
        }
        columns
    }

    /// Steps the current state by the unit of a column and writes the key of the state that follows. Returns whether
    /// there is a key: the dead state has none.
    #[tactic(auto, unfolding(crate::specs::Steppers::stepping_of))]
    pub fn next(&mut self, column: usize, key: &mut Vec<u32>) -> Result<bool, AllocError>
        requires { column < alphabet_len (stepping_of self.old).classes }
        ensures kept { stepping_of self.new ≡ stepping_of self.old }
        ensures key { IfOk result (λ goes_on. MatchBool goes_on
            (IsKeyOf (stepping_of self.old) key.new.items (stepped (stepping_of self.old) column))
            (is_dead_state (stepped (stepping_of self.old) column) ≡ true)) }
    {
        let group = self.columns.groups.of(column);
        let lead = lead_steps(&self.current, &self.leads, self.kind, group);
        let own = &self.current.steps;
        gathered::write_label(&self.closures, own, lead, group, &mut self.label)?;
        self.lead_in.write_key(
            &mut self.closures,
            gathered::targets(own, lead, column),
            group,
            &self.label,
            &mut self.reached,
            key,
        )
    }

    /// Whether two columns certainly lead to the same state: no assertion distinguishes them, and they lead to the same
    /// rows. `false` says nothing.
    #[tactic(auto, unfolding(crate::specs::Steppers::stepping_of))]
    pub fn are_alike(&self, column: usize, other: usize) -> bool
        requires column { column < alphabet_len (stepping_of self.now).classes }
        requires other { other < alphabet_len (stepping_of self.now).classes }
        ensures { result ≡ true → stepped (stepping_of self.now) column ≡ stepped (stepping_of self.now) other }
    {
        let group = self.columns.groups.of(column);
        if group != self.columns.groups.of(other) {
            return false;
        }
        let own = &self.current.steps;
        if !are_equal(&own.targets[column], &own.targets[other]) {
            return false;
        }
        match lead_steps(&self.current, &self.leads, self.kind, group) {
            Some(lead) => are_equal(&lead.targets[column], &lead.targets[other]),
            None => true,
        }
    }

    /// The patterns of a key's state, which matched before its last unit. For numbers that aren't a key it returns some
    /// of them, or none.
    pub fn label(key: &[u32]) -> &[u32]
        ensures { result.now ≡ label_of key.now }
    {
        keys::label_of(key)
    }

    /// The size of a key's state in bytes, as limits count it: 8, and 4 for each row and each pattern.
    #[tactic(auto, unfolding(crate::specs::Steppers::stepping_of))]
    pub fn size(&self, key: &[u32]) -> u64
        requires { (stepping_of self.now).is_key key.now ≡ true }
        ensures value { result ≡ state_size ((stepping_of self.now).state_of key.now) }
        ensures small { result < 2 ^ 35 }
    {
        let rows = self.lead_in.rows_len(keys::own_of(key), keys::is_led(key));
        8 + 4 * (rows + keys::label_of(key).len()) as u64
    }
}

/// What the steps of the lead-in's rows need, if they follow the current state's own rows and go on before the units of
/// a group. Leftmost-first they don't go on after a match.
fn lead_steps<'l>(
    current: &Current,
    leads: &'l [LeadSteps],
    kind: MatchKind,
    group: u8,
) -> Option<&'l ColumnSteps>
    requires group { group < 32 }
    requires context { IfSome current.now.led_in (λ context. context < length leads.now) }
    ensures { IsLeadOf current.now leads.now kind group (option_copied result) }
{
    let context = current.led_in?;
    if !goes_on(kind, &current.steps.matches[group as usize]) {
        return None;
    }
    Some(&leads[context as usize].steps)
}

/// Whether two lists are equal. Most have different lengths.
fn are_equal(rows: &[StateID], others: &[StateID]) -> bool
    ensures { result ≡ true → rows.now ≡ others.now }
{
    if rows.len() != others.len() {
        return false;
    }
    for i in 0..rows.len() {
        if rows[i].as_u32() != others[i].as_u32() {
            return false;
        }
    }
    true
}
