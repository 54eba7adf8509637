//! Determinizing: each reached state of the construction becomes a state of the table.

ghost use Rattle.std.specs.Prelude.{◌≡◌, Bool, IfErr, IfOk, MatchBool, OnOk};
ghost use Rattle.rx_spec.specs.Builds.{Build};
ghost use Rattle.rx_spec.specs.Causes.{BuildFits, IsSupported, IsUnsupported};
ghost use Rattle.rx_expr.specs.Nfa.{meaning};
ghost use Rattle.rx_expr.specs.Refusals.{IsRefused, TableRefused};
ghost use Rattle.rx_determinize.specs.Begun.{IsBegun, IsBegunWith, build_in, limits_of};
ghost use Rattle.rx_determinize.specs.Building.{HasStates, IsStartedOver};

use crate::construction::Construction;
use crate::settled::Settled;
use rx_base::{ByteSet, PatternID, StateID};
use rx_dense::OwnedDFA;
use rx_expr::build_error::{BuildError, BuildErrorKind};
use rx_expr::thompson::NFA;
use rx_stepper::Stepper;
use std::alloc::Global;
use std::collections::BTreeMap;

/// Adds a state for each reached state of the construction to a table that was begun for the NFA, in the order in which
/// they are found, and sets the start entries. Returns the patterns of the match states, by state id.
///
/// # Errors
///
/// A `BuildError` whose cause holds, or `Memory` if memory runs out. Drop the table then: its states may be incomplete.
pub fn determinize(
    alloc: Global,
    nfa: &NFA,
    settled: &Settled,
    dfa: &mut OwnedDFA,
) -> Result<BTreeMap<StateID, Vec<PatternID>>, BuildError>
    requires begun { IsBegun (meaning nfa.now) settled.now dfa.old }
    ensures states { IfOk result (HasStates (build_in (meaning nfa.now) settled.now dfa.old) dfa.new) }
    ensures rest { OnOk result (IsStartedOver dfa.old dfa.new) }
    ensures fits { OnOk result ((byte_classes : Bool) → IsBegunWith (meaning nfa.now) settled.now byte_classes dfa.old
        → BuildFits (limits_of settled.now byte_classes) (build_in (meaning nfa.now) settled.now dfa.old)) }
    ensures err { IfErr result (λ error. (byte_classes : Bool)
        → IsBegunWith (meaning nfa.now) settled.now byte_classes dfa.old
        → IsRefused (TableRefused (limits_of settled.now byte_classes) (build_in (meaning nfa.now) settled.now
        dfa.old)) error.kind) }
{
    if is_unsupported(nfa, &settled.quit) {
        return Err(BuildErrorKind::Unsupported.into());
    }
    let classes = *dfa.byte_classes();
    let stepper = Stepper::new(alloc, nfa, settled.match_kind, &classes)?;
    let mut construction = Construction::new(alloc, stepper, &classes, settled)?;
    construction.set_starts(nfa, dfa)?;
    construction.explore(dfa)?;
    Ok(construction.states.matches(alloc, dfa)?)
}

/// Whether the NFA has a Unicode word assertion while some byte from 0x80 on isn't a quit byte.
fn is_unsupported(nfa: &NFA, quit: &ByteSet) -> bool
    ensures { (b : Build) → b.nfa ≡ meaning nfa.now → b.quit ≡ quit.now
        → MatchBool result (IsUnsupported b) (IsSupported b) }
{
    nfa.look_set_any().contains_word_unicode() && !quit.contains_range(0x80, 0xff)
}
