//! The patterns of match states.

ghost use Rattle.std.specs.Prelude.{◌≡◌, ◌<◌, ◌≤◌, ◌+◌, All, IfOk, OnOk, length, take};
ghost use Rattle.rx_spec.specs.Causes.{max_id};
ghost use Rattle.rx_dense.specs.Layouts.{row_count};
ghost use Rattle.rx_stepper.specs.Keys.{label_of};
ghost use Rattle.rx_determinize.specs.Matching.{AreLabels};

use crate::states::{States, row_id};
use rx_base::{PatternID, StateID};
use rx_dense::OwnedDFA;
use rx_stepper::Stepper;
use std::alloc::{AllocError, Global};
use std::collections::BTreeMap;

impl States {
    /// The patterns of each match state, by state id.
    pub(crate) fn matches(
        &self,
        alloc: Global,
        dfa: &OwnedDFA,
    ) -> Result<BTreeMap<StateID, Vec<PatternID>>, AllocError>
        requires count { row_count dfa.now ≡ length self.now.keys + 2 }
        requires few { length self.now.keys ≤ max_id }
        requires are_ids { All (λ key. All (λ k. k ≤ max_id) (label_of key)) self.now.keys }
        ensures { IfOk result (AreLabels self.now.keys dfa.now) }
    {
        let mut matches = BTreeMap::new(alloc);
        'places: for place in 0..self.len() {
            self.add_label(alloc, dfa, place, &mut matches)?;
        }
        Ok(matches)
    }

    /// Adds the patterns of the key at an index, if it has some.
    fn add_label(
        &self,
        alloc: Global,
        dfa: &OwnedDFA,
        place: usize,
        matches: &mut BTreeMap<StateID, Vec<PatternID>>,
    ) -> Result<(), AllocError>
        requires place { place < length self.now.keys }
        requires count { row_count dfa.now ≡ length self.now.keys + 2 }
        requires few { length self.now.keys ≤ max_id }
        requires are_ids { All (λ key. All (λ k. k ≤ max_id) (label_of key)) self.now.keys }
        requires labels { AreLabels (take place self.now.keys) dfa.now matches.old }
        ensures { OnOk result (AreLabels (take (place + 1) self.now.keys) dfa.now matches.new) }
    {
        let key = self.key(place as u32);
        let label = Stepper::label(key);
        if label.is_empty() {
            return Ok(());
        }
        let list = patterns(alloc, label)?;
        let id = row_id(dfa, place + 2);
        matches.insert(id, list)?;
        Ok(())
    }
}

/// Converts pattern numbers to ids.
fn patterns(alloc: Global, label: &[u32]) -> Result<Vec<PatternID>, AllocError>
    requires { All (λ k. k ≤ max_id) label.now }
    ensures { IfOk result (λ patterns. patterns.items ≡ label.now) }
{
    let mut patterns = Vec::with_capacity(alloc, label.len())?;
    for pattern in label {
        patterns.push(PatternID::must(*pattern as usize))?;
    }
    Ok(patterns)
}
