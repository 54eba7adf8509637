//! Powerset states.

ghost use Rattle.std.specs.Prelude.{◌≡◌, ℕ, ◌++◌, ◌<◌, ◌≤◌, IfOk, OnOk, length, slice_index};
ghost use Rattle.std.specs.List.{flat_map, list_any};
ghost use Rattle.rx_spec.specs.States.{dead_state, start_state, step, state_at, row_at, cut, to_first_match};
ghost use Rattle.rx_spec.specs.States.{is_look_row, is_match_row, pattern_of, target};
ghost use Rattle.rx_spec.specs.Builds.{is_dead_state};
ghost use Rattle.rx_spec.specs.Causes.{id_count};
ghost use Rattle.rx_spec.specs.Sizes.{state_size};
ghost use Rattle.rx_spec.specs.Bytes.{contains};
ghost use Rattle.rx_base.specs.Unit.{unit_number};
ghost use Rattle.rx_expr.specs.Nfa.{meaning};

use crate::closure::{Passing, closed, row_at};
use rx_base::{ByteSet, Facts, MatchKind, PatternID, Start, StateID, Unit};
use rx_expr::thompson::{NFA, Row};
use std::alloc::{AllocError, Global};

/// A powerset state of an NFA.
#[derive(PartialEq, Eq, PartialOrd, Ord, Hash, Drop)]
pub struct PowerState {
    /// The rows that may go on, the preferred first. Each reads a byte, matches or asserts.
    rows: Vec<StateID>,
    /// The facts about the last unit that some assertion asks for.
    context: Facts,
    /// The patterns that matched before that unit, the preferred first.
    label: Vec<PatternID>,
    ghost few_rows: { length rows.items ≤ id_count },
    ghost few_patterns: { length label.items ≤ id_count },
}

impl PowerState {
    ghost use Rattle.rx_powerset.specs.PowerState.{state_of};

    /// The dead state: no row goes on and no pattern matched.
    pub fn dead(alloc: Global) -> PowerState
        ensures { state_of result ≡ dead_state }
    {
        PowerState {
            rows: Vec::new(alloc),
            context: Facts::none(),
            label: Vec::new(alloc),
        }
    }

    /// The start state for a row of the NFA and a start context.
    pub fn start(
        alloc: Global,
        nfa: &NFA,
        row: StateID,
        start: Start,
    ) -> Result<PowerState, AllocError>
        ensures { IfOk result (λ s. state_of s ≡ start_state (meaning nfa.now) row start) }
    {
        let known = Facts::of_start(nfa.line_terminator(), start);
        PowerState::at(alloc, nfa, &[row], known, Vec::new(alloc))
    }

    /// The state after a unit.
    ///
    /// The unit decides the assertions of this state. Rows that match give the patterns of the next state and,
    /// leftmost-first, cut off the less preferred rows. The rows that are left read the unit.
    pub fn step(
        &self,
        alloc: Global,
        nfa: &NFA,
        kind: MatchKind,
        unit: Unit,
    ) -> Result<PowerState, AllocError>
        ensures { IfOk result (λ s. state_of s ≡ step (meaning nfa.now) kind (state_of self.now) (unit_number unit)) }
    {
        let known = Facts::of_unit(nfa.line_terminator(), unit);
        let passing = Passing::Tested {
            last: self.context,
            next: known,
            direction: nfa.direction(),
        };
        let settled = closed(alloc, nfa, &self.rows, &passing)?;
        let going = cut(nfa, kind, &settled);
        let label = matched(alloc, nfa, going)?;
        let targets = targets(alloc, nfa, going, unit)?;
        PowerState::at(alloc, nfa, &targets, known, label)
    }

    /// The state of the rows that are reached from some rows without reading a byte.
    fn at(
        alloc: Global,
        nfa: &NFA,
        from: &[StateID],
        known: Facts,
        label: Vec<PatternID>,
    ) -> Result<PowerState, AllocError>
        requires { length label.items ≤ id_count }
        ensures { IfOk result (λ s. state_of s ≡ state_at (meaning nfa.now) from.now known label.items) }
    {
        let rows = closed(alloc, nfa, from, &Passing::Standing)?;
        let context = if has_look(nfa, &rows) {
            nfa.asked_facts().intersect(known)
        } else {
            Facts::none()
        };
        Ok(PowerState {
            rows,
            context,
            label,
        })
    }

    /// The size of the state in bytes, as limits count it: 8, and 4 for each row and each pattern.
    pub fn size(&self) -> u64
        ensures { result ≡ state_size (state_of self.now) }
    {
        8 + 4 * self.rows.len() as u64 + 4 * self.label.len() as u64
    }

    /// Whether the state is dead: no row goes on and no pattern matched, so no match is reported from here on.
    #[inline]
    pub fn is_dead(&self) -> bool
        ensures { result ≡ is_dead_state (state_of self.now) }
    {
        self.rows.is_empty() && self.label.is_empty()
    }

    /// The number of patterns that matched.
    pub fn pattern_len(&self) -> usize
        ensures { result ≡ length (state_of self.now).label }
    {
        self.label.len()
    }

    /// A pattern that matched, by its index.
    pub fn pattern(&self, i: usize) -> PatternID
        requires { i < length (state_of self.now).label }
        ensures { result ≡ slice_index (state_of self.now).label i }
    {
        self.label[i]
    }
}

/// Whether some row is an assertion.
fn has_look(nfa: &NFA, rows: &[StateID]) -> bool
    ensures { result ≡ list_any (λ q. is_look_row (row_at (meaning nfa.now).rows q)) rows.now }
{
    rows.iter().any(|id| is_look(nfa, *id))
}

fn is_look(nfa: &NFA, id: StateID) -> bool
    ensures { result ≡ is_look_row (row_at (meaning nfa.now).rows id) }
{
    match row_at(nfa, id) {
        Row::Look { .. } => true,
        _ => false,
    }
}

fn is_match(nfa: &NFA, id: StateID) -> bool
    ensures { result ≡ is_match_row (row_at (meaning nfa.now).rows id) }
{
    match row_at(nfa, id) {
        Row::Match { .. } => true,
        _ => false,
    }
}

/// The rows that go on: leftmost-first, those up to the first match.
fn cut<'r>(nfa: &NFA, kind: MatchKind, rows: &'r [StateID]) -> &'r [StateID]
    ensures { result.now ≡ cut kind (meaning nfa.now).rows rows.now }
{
    match kind {
        MatchKind::All => rows,
        MatchKind::LeftmostFirst => to_first_match(nfa, rows),
    }
}

/// The rows up to the first match, with that one.
fn to_first_match<'r>(nfa: &NFA, rows: &'r [StateID]) -> &'r [StateID]
    ensures { result.now ≡ to_first_match (meaning nfa.now).rows rows.now }
{
    for (i, id) in rows.iter().enumerate() {
        if is_match(nfa, *id) {
            return &rows[..i + 1];
        }
    }
    rows
}

/// The patterns that rows match.
fn matched(alloc: Global, nfa: &NFA, rows: &[StateID]) -> Result<Vec<PatternID>, AllocError>
    ensures { IfOk result (λ v. v.items ≡ flat_map (λ q. pattern_of (row_at (meaning nfa.now).rows q)) rows.now) }
{
    let mut patterns = Vec::new(alloc);
    for id in rows {
        add_pattern(nfa, *id, &mut patterns)?;
    }
    Ok(patterns)
}

/// Adds the pattern that a row matches.
fn add_pattern(nfa: &NFA, id: StateID, patterns: &mut Vec<PatternID>) -> Result<(), AllocError>
    ensures { OnOk result (patterns.new.items ≡ patterns.old.items ++ pattern_of (row_at (meaning nfa.now).rows id)) }
{
    if let Row::Match { pattern } = row_at(nfa, id) {
        patterns.push(pattern)?;
    }
    Ok(())
}

/// The rows that are reached by reading a unit.
fn targets(
    alloc: Global,
    nfa: &NFA,
    rows: &[StateID],
    unit: Unit,
) -> Result<Vec<StateID>, AllocError>
    ensures { let each = λ (q : ℕ). target (unit_number unit) (row_at (meaning nfa.now).rows q) in
        IfOk result (λ v. v.items ≡ flat_map each rows.now) }
{
    let mut targets = Vec::with_capacity(alloc, rows.len())?;
    for id in rows {
        add_target(nfa, *id, unit, &mut targets)?;
    }
    Ok(targets)
}

/// Adds the row that follows one that reads the unit.
fn add_target(
    nfa: &NFA,
    id: StateID,
    unit: Unit,
    targets: &mut Vec<StateID>,
) -> Result<(), AllocError>
    ensures { let row = row_at (meaning nfa.now).rows id in
        OnOk result (targets.new.items ≡ targets.old.items ++ target (unit_number unit) row) }
{
    if let Row::Bytes { set, next } = row_at(nfa, id) {
        if reads(&set, unit) {
            targets.push(next)?;
        }
    }
    Ok(())
}

/// Whether a unit is in a set. The end of input is in none.
fn reads(set: &ByteSet, unit: Unit) -> bool
    ensures { result ≡ contains set.now (unit_number unit) }
{
    match unit {
        Unit::Byte(byte) => set.contains(byte),
        Unit::Eoi => false,
    }
}
