//! The construction: each reached state is stepped once, and its row is written.

ghost use Rattle.std.specs.Prelude.{◌≡◌, ℕ, ◌<◌, ◌≤◌, ◌+◌, [], true, false, length};
ghost use Rattle.std.specs.Prelude.{IfErr, IfOk, OnOk};
ghost use Rattle.rx_spec.specs.Builds.{Running};
ghost use Rattle.rx_spec.specs.Bytes.{contains};
ghost use Rattle.rx_base.specs.ByteClasses.{alphabet_len};
ghost use Rattle.rx_base.specs.Unit.{unit_number};
ghost use Rattle.rx_stepper.specs.Stepping.{IsAlone, stepped, unit_of};
ghost use Rattle.rx_stepper.specs.Steppers.{stepping_of};
ghost use Rattle.rx_determinize.specs.Working.{none_met};
ghost use Rattle.rx_determinize.specs.Constructions.{AreUnits, Continues, IsRefusal, IsWrittenOver, keys_in, work_of};
ghost use Rattle.rx_determinize.specs.Filling.{FindsRow, IsEntering, IsStepping, begun_at, next_column, none_stepped};
ghost use Rattle.rx_determinize.specs.Models.{AreModels, IsExploring, IsKeyAt};

use crate::models::Models;
use crate::settled::Settled;
use crate::states::{States, row_id};
use rx_base::{ByteClasses, StateID, Unit};
use rx_dense::OwnedDFA;
use rx_expr::build_error::BuildError;
use rx_stepper::Stepper;
use std::alloc::{AllocError, Global};

/// What is carried from one state to the next.
#[derive(Drop)]
pub(crate) struct Construction<'n> {
    pub(crate) stepper: Stepper<'n>,
    pub(crate) states: States,
    pub(crate) settled: &'n Settled,
    /// The unit by which each column steps.
    pub(crate) units: Vec<Unit>,
    /// Room for a key.
    pub(crate) key: Vec<u32>,
}

/// How far the rows are written.
#[derive(Clone, Copy)]
pub(crate) struct Progress {
    /// The state whose row is being written, by its index. The rows of those before it are complete.
    pub(crate) place: usize,
    /// The columns before this one are written.
    pub(crate) column: usize,
    /// Whether the row began as a copy of its template.
    pub(crate) copied: bool,
}

/// The column on which a state was stepped last, and the row to which it led.
#[derive(Clone, Copy)]
pub(crate) struct Last {
    /// `None` before the first step.
    pub(crate) column: Option<usize>,
    pub(crate) id: StateID,
}

impl<'n> Construction<'n> {
    /// A construction without states.
    pub(crate) fn new(
        alloc: Global,
        stepper: Stepper<'n>,
        classes: &ByteClasses,
        settled: &'n Settled,
    ) -> Result<Construction<'n>, AllocError>
        ensures stepping { IfOk result (λ c. stepping_of c.stepper ≡ stepping_of stepper.entry) }
        ensures states { IfOk result (λ c. c.states ≡ none_met) }
        ensures settled { IfOk result (λ c. c.settled.now ≡ settled.now) }
        ensures units { IfOk result (λ c. AreUnits c.units.items classes.now) }
    {
        let mut units = Vec::with_capacity(alloc, classes.alphabet_len())?;
        for unit in classes.representatives() {
            units.push(unit)?;
        }
        Ok(Construction {
            stepper,
            states: States::new(alloc),
            settled,
            units,
            key: Vec::new(alloc),
        })
    }

    /// The row of the state to which a column leads. The column isn't a quit byte's.
    fn find_row(
        &mut self,
        dfa: &mut OwnedDFA,
        at: Progress,
        last: Last,
    ) -> Result<StateID, BuildError>
        requires stepping { IsStepping (work_of self.old) dfa.old at last }
        requires column { at.column < alphabet_len dfa.old.classes }
        requires goes_on { contains dfa.old.quit (unit_of dfa.old.classes at.column) ≡ false }
        ensures found { IfOk result (FindsRow (work_of self.old) dfa.old (Running
            (stepped (stepping_of self.old.stepper) at.column)) (work_of self.new) dfa.new) }
        ensures err { IfErr result (λ error. IsRefusal (work_of self.old) dfa.old error.kind) }
    {
        if let Some(other) = last.column {
            if self.stepper.are_alike(at.column, other) {
                return Ok(last.id);
            }
        }
        if self.stepper.next(at.column, &mut self.key)? {
            self.states.add(&self.stepper, dfa, self.settled, &self.key)
        } else {
            Ok(StateID::ZERO)
        }
    }

    /// Writes where a column leads the current state. The column isn't a quit byte's.
    fn write_column(
        &mut self,
        dfa: &mut OwnedDFA,
        at: Progress,
        last: Last,
    ) -> Result<Last, BuildError>
        requires stepping { IsStepping (work_of self.old) dfa.old at last }
        requires column { at.column < alphabet_len dfa.old.classes }
        requires goes_on { contains dfa.old.quit (unit_of dfa.old.classes at.column) ≡ false }
        ensures stepping { IfOk result (IsStepping (work_of self.new) dfa.new (next_column at)) }
        ensures later { OnOk result (Continues (work_of self.old) dfa.old (work_of self.new) dfa.new) }
        ensures err { IfErr result (λ error. IsRefusal (work_of self.old) dfa.old error.kind) }
    {
        let unit = self.units[at.column];
        let id = self.find_row(dfa, at, last)?;
        dfa.set_transition(row_id(dfa, at.place + 2), unit, id);
        Ok(Last {
            column: Some(at.column),
            id,
        })
    }

    /// Writes where a column leads the current state, unless that is written already.
    fn pass_column(
        &mut self,
        dfa: &mut OwnedDFA,
        at: Progress,
        last: Last,
    ) -> Result<Last, BuildError>
        requires stepping { IsStepping (work_of self.old) dfa.old at last }
        requires column { at.column < alphabet_len dfa.old.classes }
        ensures stepping { IfOk result (IsStepping (work_of self.new) dfa.new (next_column at)) }
        ensures later { OnOk result (Continues (work_of self.old) dfa.old (work_of self.new) dfa.new) }
        ensures err { IfErr result (λ error. IsRefusal (work_of self.old) dfa.old error.kind) }
    {
        let unit = self.units[at.column];
        if is_quit(dfa, unit) {
            let quit = row_id(dfa, 1);
            dfa.set_transition(row_id(dfa, at.place + 2), unit, quit);
            return Ok(last);
        }
        if at.copied && !self.stepper.has_own(at.column) {
            return Ok(last);
        }
        self.write_column(dfa, at, last)
    }

    /// Writes the columns of a state's row: all of them, or, if the row was copied from a template, those on which the
    /// state's own rows continue.
    fn fill(&mut self, dfa: &mut OwnedDFA, place: usize, copied: bool) -> Result<(), BuildError>
        requires stepping { IsStepping (work_of self.old) dfa.old (begun_at place copied) none_stepped }
        ensures entering { OnOk result (IsEntering (work_of self.new) dfa.new (length dfa.new.starts) (place + 1)) }
        ensures current { OnOk result (IsKeyAt (work_of self.new) place) }
        ensures later { OnOk result (Continues (work_of self.old) dfa.old (work_of self.new) dfa.new) }
        ensures err { IfErr result (λ error. IsRefusal (work_of self.old) dfa.old error.kind) }
    {
        let mut last = Last {
            column: None,
            id: StateID::ZERO,
        };
        let skips = can_skip(dfa, copied);
        let mut column = next_unready(&self.stepper, 0, skips);
        'columns: while column < self.units.len() {
            let at = Progress {
                place,
                column,
                copied,
            };
            last = self.pass_column(dfa, at, last)?;
            column = next_unready(&self.stepper, column + 1, skips);
        }
        Ok(())
    }

    /// Copies the current state's row from its template if there is one. Returns whether it did.
    fn begin_row(&self, dfa: &mut OwnedDFA, place: usize, models: &Models) -> bool
        requires stepping { IsStepping (work_of self.now) dfa.old (begun_at place false) none_stepped }
        requires models { AreModels (keys_in (work_of self.now) dfa.old) self.now.states dfa.old models.now place }
        ensures stepping { IsStepping (work_of self.now) dfa.new (begun_at place result) none_stepped }
        ensures rest { IsWrittenOver dfa.old dfa.new }
    {
        let Some(row) = models.row(self.stepper.led_in()) else {
            return false;
        };
        let from = row_id(dfa, row);
        let to = row_id(dfa, place + 2);
        dfa.copy_state(from, to);
        true
    }

    /// Keeps the current state's row as a template if none of its own rows continues on any column.
    fn keep_model(&self, dfa: &OwnedDFA, place: usize, models: &mut Models)
        requires exploring { IsExploring (work_of self.now) dfa.now models.old (place + 1) }
        requires current { IsKeyAt (work_of self.now) place }
        ensures { IsExploring (work_of self.now) dfa.now models.new (place + 1) }
    {
        if self.stepper.next_own(0) < self.units.len() {
            return;
        }
        models.keep(self.stepper.led_in(), place + 2);
    }

    /// Writes the row of the state at an index. It starts as a copy of the state's template if there is one; otherwise
    /// the state may become a template itself.
    fn step(
        &mut self,
        dfa: &mut OwnedDFA,
        place: usize,
        models: &mut Models,
    ) -> Result<(), BuildError>
        requires exploring { IsExploring (work_of self.old) dfa.old models.old place }
        requires place { place < length self.old.states.keys }
        ensures exploring { OnOk result (IsExploring (work_of self.new) dfa.new models.new (place + 1)) }
        ensures later { OnOk result (Continues (work_of self.old) dfa.old (work_of self.new) dfa.new) }
        ensures err { IfErr result (λ error. IsRefusal (work_of self.old) dfa.old error.kind) }
    {
        self.stepper.begin(self.states.key(place as u32))?;
        let copied = self.begin_row(dfa, place, models);
        self.fill(dfa, place, copied)?;
        if !copied {
            self.keep_model(dfa, place, models);
        }
        Ok(())
    }

    /// Writes the row of each state, including those that are found on the way.
    pub(crate) fn explore(&mut self, dfa: &mut OwnedDFA) -> Result<(), BuildError>
        requires { IsEntering (work_of self.old) dfa.old (length dfa.old.starts) 0 }
        ensures entering { OnOk result (IsEntering (work_of self.new) dfa.new (length dfa.new.starts)
            (length self.new.states.keys)) }
        ensures later { OnOk result (Continues (work_of self.old) dfa.old (work_of self.new) dfa.new) }
        ensures err { IfErr result (λ error. IsRefusal (work_of self.old) dfa.old error.kind) }
    {
        let mut models = Models::new();
        let mut place = 0;
        'places: while place < self.states.len() {
            self.step(dfa, place, &mut models)?;
            place += 1;
        }
        Ok(())
    }
}

/// Whether columns can be skipped: the row was copied from a template, and there are no quit bytes.
fn can_skip(dfa: &OwnedDFA, copied: bool) -> bool
    ensures { result ≡ true → (copied ≡ true) × (dfa.now.quit ≡ 0) }
{
    if copied {
        dfa.quitset().is_empty()
    } else {
        false
    }
}

/// The next column from `column` on. With `skips` it skips columns on which none of the state's own rows continue.
#[inline]
fn next_unready(stepper: &Stepper<'_>, column: usize, skips: bool) -> usize
    requires { column ≤ alphabet_len (stepping_of stepper.now).classes }
    ensures from { column ≤ result }
    ensures within { result ≤ alphabet_len (stepping_of stepper.now).classes }
    ensures ready { (c : ℕ) → column ≤ c → c < result → (skips ≡ true) × IsAlone (stepping_of stepper.now) c }
{
    if skips {
        stepper.next_own(column)
    } else {
        column
    }
}

/// Whether a table quits at a unit. It never quits at the end of input.
#[inline]
fn is_quit(dfa: &OwnedDFA, unit: Unit) -> bool
    ensures { result ≡ contains dfa.now.quit (unit_number unit) }
{
    let quits = dfa.quitset();
    if quits.is_empty() {
        return false;
    }
    match unit {
        Unit::Byte(byte) => quits.contains(byte),
        Unit::Eoi => false,
    }
}
