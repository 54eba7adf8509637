//! The states of the construction, each with a row of the table.

ghost use Rattle.std.specs.Prelude.{◌≡◌, ◌≢◌, ◌<◌, ◌≤◌, ◌+◌, ◌*◌, ◌^◌, [], ◌∷◌, ◌++◌, if◌then◌else◌, true, false};
ghost use Rattle.std.specs.Prelude.{length};
ghost use Rattle.std.specs.Prelude.{slice_get, AllPairs, All, Contains, Some, IfOk, IfErr, OnOk, Err};
ghost use Rattle.rx_spec.specs.Causes.{max_id};
ghost use Rattle.rx_search.specs.Starts.{IsId};
ghost use Rattle.rx_dense.specs.Builder.{with_row};
ghost use Rattle.rx_dense.specs.Layouts.{AreRows, IsRowId, ids_of, row_count, stride};
ghost use Rattle.rx_stepper.specs.Steppers.{stepping_of};
ghost use Rattle.rx_determinize.specs.Working.{IsWorking, IsBare, IsOver, keying, none_met};
ghost use Rattle.rx_determinize.specs.Adding.{Adds, CanAdd, IsFull, IsWithin, Passes};

use crate::settled::Settled;
use rx_base::{PatternID, StateID};
use rx_dense::{AddError, OwnedDFA};
use rx_expr::build_error::{BuildError, BuildErrorKind};
use rx_interner::Interner;
use rx_stepper::Stepper;
use std::alloc::Global;
use std::marker::Model;

/// The states of the construction as keys, with their sizes.
#[derive(Drop)]
pub(crate) struct States {
    keys: Interner,
    /// The total size of all states, in bytes.
    size: u128,
    /// The total length of the pattern lists of all states.
    patterns: u128,
}

impl Model for States {
    ghost use Rattle.std.specs.Prelude.{◌<◌, ◌≤◌, ◌*◌, ◌^◌, length};
    ghost use Rattle.rx_stepper.specs.Steppers.{stepping_of};
    ghost use Rattle.rx_determinize.specs.Working.{Met};

    ghost Value = { Met };

    ghost view = { λ s. record { keys = s.keys; size = s.size; patterns = s.patterns } };

    ghost invariant = { λ s. (length s.keys ≤ 2 ^ 32) × (s.size ≤ length s.keys * 2 ^ 64) × (s.patterns ≤ length
        s.keys * 2 ^ 64) };
}

impl States {
    /// No states.
    pub(crate) fn new(alloc: Global) -> States
        ensures { result ≡ none_met }
    {
        States {
            keys: Interner::new(alloc),
            size: 0,
            patterns: 0,
        }
    }

    /// The number of states.
    pub(crate) fn len(&self) -> usize
        ensures { result ≡ length self.now.keys }
    {
        self.keys.len()
    }

    /// The key of a state, by its index.
    pub(crate) fn key(&self, id: u32) -> &[u32]
        requires { id < length self.now.keys }
        ensures { slice_get self.now.keys id ≡ Some result.now }
    {
        self.keys.key(id)
    }

    /// The row of a key's state. Adds the state if it is new.
    pub(crate) fn add(
        &mut self,
        stepper: &Stepper<'_>,
        dfa: &mut OwnedDFA,
        settled: &Settled,
        key: &[u32],
    ) -> Result<StateID, BuildError>
        requires count { row_count dfa.old ≡ length self.old.keys + 2 }
        requires can { CanAdd (keying (stepping_of stepper.now) dfa.old) settled.now self.old dfa.old key.now }
        ensures ok { IfOk result (Adds self.old dfa.old key.now self.new dfa.new) }
        ensures is_row { IfOk result (IsRowId dfa.new) }
        ensures rows { OnOk result (AreRows dfa.new) }
        ensures working { OnOk result
            (IsWorking (keying (stepping_of stepper.now) dfa.old) settled.now self.new dfa.new) }
        ensures err { IfErr result (λ error.
            IsOver (keying (stepping_of stepper.now) dfa.old) settled.now dfa.old error.kind) }
    {
        let rows = dfa.state_len();
        prove!(self.keys.len() + 2 == rows);
        let interned = self.keys.intern(key)?;
        let row = interned.id as usize + 2;
        if !interned.is_new {
            return Ok(row_id(dfa, row));
        }
        add_row(dfa)?;
        self.size += u128::from(stepper.size(key));
        self.patterns += Stepper::label(key).len() as u128;
        self.check(dfa, settled)?;
        Ok(row_id(dfa, row))
    }

    /// Returns an error if a limit is passed.
    fn check(&self, dfa: &OwnedDFA, settled: &Settled) -> Result<(), BuildError>
        requires { IsBare dfa.now }
        ensures ok { OnOk result (IsWithin settled.now self.now dfa.now) }
        ensures err { IfErr result (λ error. Passes settled.now self.now dfa.now error.kind) }
    {
        if self.patterns > PatternID::MAX.as_usize() as u128 {
            return Err(BuildErrorKind::TooManyMatchPatternIDs.into());
        }
        if let Some(limit) = settled.dfa_size_limit {
            if dfa.memory_usage() > limit {
                return Err(BuildErrorKind::DFAExceededSizeLimit { limit }.into());
            }
        }
        if let Some(limit) = settled.determinize_size_limit {
            if self.size > limit as u128 {
                return Err(BuildErrorKind::DeterminizeExceededSizeLimit { limit }.into());
            }
        }
        Ok(())
    }
}

/// The id of a row, by its number.
pub(crate) fn row_id(dfa: &OwnedDFA, row: usize) -> StateID
    requires { row < row_count dfa.now }
    ensures value { result ≡ row * stride dfa.now }
    ensures is_id { IsId (ids_of dfa.now) result }
    ensures is_row { IsRowId dfa.now result }
    ensures rows { AreRows dfa.now }
{
    let rows = dfa.state_len();
    prove!(row < rows);
    StateID::must(row << dfa.stride2())
}

/// Adds a row in which every column leads to dead.
fn add_row(dfa: &mut OwnedDFA) -> Result<(), BuildError>
    ensures ok { OnOk result (dfa.new ≡ with_row dfa.old) }
    ensures fits { OnOk result (length dfa.old.words ≤ max_id) }
    ensures err { IfErr result (λ error. IsFull dfa.old error.kind) }
{
    match dfa.add_empty_state() {
        Ok(_) => Ok(()),
        Err(AddError::TooManyStates) => Err(BuildErrorKind::TooManyStates.into()),
        Err(AddError::Memory) => Err(BuildErrorKind::Memory.into()),
    }
}
