//! The states in which searches start.

ghost use Rattle.std.specs.Prelude.{◌≡◌, ◌≤◌, ◌+◌, false, IfErr, IfOk, IfSome, OnOk, length};
ghost use Rattle.rx_spec.specs.Builds.{IsReached, is_dead_state, start_node};
ghost use Rattle.rx_spec.specs.States.{start_state};
ghost use Rattle.rx_base.specs.Search.{mode_of};
ghost use Rattle.rx_dense.specs.Layouts.{mode_place};
ghost use Rattle.rx_expr.specs.Nfa.{meaning};
ghost use Rattle.rx_stepper.specs.Steppers.{stepping_of};
ghost use Rattle.rx_determinize.specs.Constructions.{Continues, IsRefusal, Serves, keys_in, work_of};
ghost use Rattle.rx_determinize.specs.Filling.{FindsRow, HasEntries, IsEntering, StartsAt};

use crate::construction::Construction;
use rx_base::{Anchored, PatternID, Start, StateID};
use rx_dense::OwnedDFA;
use rx_expr::build_error::BuildError;
use rx_expr::thompson::NFA;

/// All start contexts, in the order of their entries.
const STARTS: [Start; 6] = [
    Start::NonWordByte,
    Start::WordByte,
    Start::Text,
    Start::LineLF,
    Start::LineCR,
    Start::CustomLineTerminator,
];

impl Construction<'_> {
    /// Sets the start entries of a table to the rows of the start states.
    pub(crate) fn set_starts(&mut self, nfa: &NFA, dfa: &mut OwnedDFA) -> Result<(), BuildError>
        requires entering { IsEntering (work_of self.old) dfa.old 0 0 }
        requires nfa { (stepping_of self.old.stepper).nfa ≡ meaning nfa.now }
        requires entries { HasEntries (length (meaning nfa.now).start_patterns) dfa.old }
        ensures entering { OnOk result (IsEntering (work_of self.new) dfa.new (length dfa.new.starts) 0) }
        ensures later { OnOk result (Continues (work_of self.old) dfa.old (work_of self.new) dfa.new) }
        ensures err { IfErr result (λ error. IsRefusal (work_of self.old) dfa.old error.kind) }
    {
        let kind = dfa.start_kind();
        let unanchored = kind.has_unanchored().then_some(nfa.start_unanchored());
        self.set_mode(dfa, &Anchored::No, &unanchored)?;
        let anchored = kind.has_anchored().then_some(nfa.start_anchored());
        self.set_mode(dfa, &Anchored::Yes, &anchored)?;
        if !dfa.starts_for_each_pattern() {
            return Ok(());
        }
        'patterns: for k in 0..nfa.pattern_len() {
            let pattern = PatternID::must(k);
            let start = nfa.start_pattern(pattern);
            self.set_mode(dfa, &Anchored::Pattern(pattern), &start)?;
        }
        Ok(())
    }

    /// Sets the start entries of one mode, whose searches start at a row of the NFA. Without one the entries are dead.
    fn set_mode(
        &mut self,
        dfa: &mut OwnedDFA,
        mode: &Anchored,
        row: &Option<StateID>,
    ) -> Result<(), BuildError>
        requires entering { IsEntering (work_of self.old) dfa.old (mode_place (mode_of mode.now)) 0 }
        requires starts { StartsAt (work_of self.old) dfa.old (mode_of mode.now) row.now }
        requires entries { mode_place (mode_of mode.now) + 6 ≤ length dfa.old.starts }
        ensures entering { OnOk result (IsEntering (work_of self.new) dfa.new (mode_place (mode_of mode.now) + 6) 0) }
        ensures later { OnOk result (Continues (work_of self.old) dfa.old (work_of self.new) dfa.new) }
        ensures err { IfErr result (λ error. IsRefusal (work_of self.old) dfa.old error.kind) }
    {
        'contexts: for i in 0..STARTS.len() {
            let start = STARTS[i];
            let id = self.start_row(dfa, *row, start)?;
            dfa.set_start_state(*mode, start, id);
        }
        Ok(())
    }

    /// The row of the start state for a row of the NFA and a start context. Without a row of the NFA it is dead.
    fn start_row(
        &mut self,
        dfa: &mut OwnedDFA,
        row: Option<StateID>,
        start: Start,
    ) -> Result<StateID, BuildError>
        requires serves { Serves (work_of self.old) dfa.old }
        requires reached { IfSome row (λ row. let state = start_state (stepping_of self.old.stepper).nfa row start in
            is_dead_state state ≡ false → IsReached (keys_in (work_of self.old) dfa.old).build state) }
        ensures found { IfOk result (FindsRow (work_of self.old) dfa.old
            (start_node (stepping_of self.old.stepper).nfa row start) (work_of self.new) dfa.new) }
        ensures err { IfErr result (λ error. IsRefusal (work_of self.old) dfa.old error.kind) }
    {
        let Some(row) = row else {
            return Ok(StateID::ZERO);
        };
        if self.stepper.start(row, start, &mut self.key)? {
            self.states.add(&self.stepper, dfa, self.settled, &self.key)
        } else {
            Ok(StateID::ZERO)
        }
    }
}
