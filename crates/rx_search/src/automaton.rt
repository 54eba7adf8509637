//! What a search asks of a table.

ghost use Rattle.std.specs.Prelude.{◌≡◌, ℕ, ◌<◌, ◌≤◌, ◌==◌, List, length, slice_index, true, IfOk, IfSome, IsTrue};
ghost use Rattle.std.specs.Prelude.{option_map};
ghost use Rattle.rx_spec.specs.Bytes.{eoi};
ghost use Rattle.rx_spec.specs.Ids.{AreIds, row_of};
ghost use Rattle.rx_spec.specs.Queries.{IsFit};
ghost use Rattle.rx_spec.specs.Splits.{half_unsplit, overlapping_unsplit};
ghost use Rattle.rx_spec.specs.Tables.{Table, is_match, IsSound as IsSoundTable};
ghost use Rattle.rx_spec.specs.declared.Direction.TheVariants.{Forward, Reverse};
ghost use Rattle.rx_base.specs.Input.{query_of};
ghost use Rattle.rx_base.specs.Search.{mode_of};
ghost use Rattle.rx_search.specs.Classes.{LeadsAsPrevious};
ghost use Rattle.rx_search.specs.Collected.{collected};
ghost use Rattle.rx_search.specs.Labels.{is_quit, patterns_of, IsFinal};
ghost use Rattle.rx_search.specs.OverlappingCalls.{Fits, next_call, IsTold};
ghost use Rattle.rx_search.specs.SplitSearches.{remaining_unsplit};
ghost use Rattle.rx_search.specs.Starts.{IsId, universal_start, Starts, StartsSearch};
ghost use Rattle.rx_search.specs.Walks.{IsInSpan};

use crate::overlapping::find_overlapping_unsplit;
use crate::splits::{find_unsplit_fwd, find_unsplit_rev};
use crate::which::which_overlapping_matches;
use crate::{OverlappingState, StartError};
use rx_base::start::Config;
use rx_base::{
    Anchored, Direction, HalfMatch, Input, MatchError, Needles, PatternID, PatternSet, StateID,
};

/// A table of rows, from each of which every byte and the end mark lead to a row.
///
/// Its meaning is one finite table of the definitions, `table`, with the id of each of its rows, `ids`. A call
/// that takes an id asks for one of a row. The other calls answer by the table also where it isn't sound, as while
/// it is built; `match_len`, `match_pattern`, `accelerator` and the searches ask for a sound one (`IsSound`).
pub trait Automaton: Drop {
    ghost table: { Self → Table };

    ghost ids: { Self → List ℕ };

    ghost IsSound: { Self → Type 0 };

    ghost sound_fact: { (s : Self) → IsProp (IsSound s) };

    /// The row to which a byte leads.
    fn next_state(&self, current: StateID, input: u8) -> StateID
        requires { IsId (ids self.now) current }
        ensures is_id { IsId (ids self.now) result }
        ensures row { row_of (ids self.now) result
            ≡ (table self.now).machine.next (row_of (ids self.now) current) input };

    /// The row to which the end mark leads.
    fn next_eoi_state(&self, current: StateID) -> StateID
        requires { IsId (ids self.now) current }
        ensures is_id { IsId (ids self.now) result }
        ensures row { row_of (ids self.now) result
            ≡ (table self.now).machine.next (row_of (ids self.now) current) eoi };

    /// Whether a byte leads from every row where the byte before it leads. `true` is certain; a table answers it
    /// for bytes that it keeps in one class. `false` means nothing. Byte 0 has no byte before it.
    fn leads_as_previous(&self, byte: u8) -> bool
        ensures { IsTrue result → LeadsAsPrevious (table self.now) byte };

    /// Whether walks over a long text are faster if they read it at several places at once. This changes no answer.
    fn prefers_several_places(&self) -> bool;

    /// The row in which a search starts, by the byte beside its span and its mode.
    fn start_state(&self, config: &Config) -> Result<StateID, StartError>
        ensures { Starts (table self.now) (ids self.now) config.now result };

    /// The one row in which searches of a mode start whatever stands beside their span, if there is one.
    fn universal_start_state(&self, mode: Anchored) -> Option<StateID>
        ensures is_id { IfSome result (IsId (ids self.now)) }
        ensures row { option_map (row_of (ids self.now)) result ≡ universal_start (table self.now) (mode_of mode) };

    /// Whether a search has more to do at a row than to go on: it is dead, quit, match, start or accelerated.
    fn is_special_state(&self, id: StateID) -> bool
        requires { IsId (ids self.now) id }
        ensures { result ≡ (table self.now).is_special (row_of (ids self.now) id) };

    /// Whether a row is dead: it leads to itself, and nothing is told any more.
    fn is_dead_state(&self, id: StateID) -> bool
        requires { IsId (ids self.now) id }
        ensures { result ≡ (row_of (ids self.now) id == 0) };

    /// Whether a search ends at a row because of a byte that can't be searched.
    fn is_quit_state(&self, id: StateID) -> bool
        requires { IsId (ids self.now) id }
        ensures { result ≡ is_quit (table self.now) (row_of (ids self.now) id) };

    /// Whether a row tells that patterns matched before the unit that led to it.
    fn is_match_state(&self, id: StateID) -> bool
        requires { IsId (ids self.now) id }
        ensures { result ≡ is_match (table self.now) (row_of (ids self.now) id) };

    /// Whether a row is marked as one in which searches start.
    fn is_start_state(&self, id: StateID) -> bool
        requires { IsId (ids self.now) id }
        ensures { result ≡ (table self.now).is_start (row_of (ids self.now) id) };

    /// Whether few bytes lead elsewhere from a row, so that a search may skip to the next of them.
    fn is_accel_state(&self, id: StateID) -> bool
        requires { IsId (ids self.now) id }
        ensures { result ≡ (table self.now).is_accelerated (row_of (ids self.now) id) };

    /// How many patterns there are.
    fn pattern_len(&self) -> usize
        ensures { result ≡ (table self.now).pattern_len };

    /// How many patterns a match row tells.
    fn match_len(&self, id: StateID) -> usize
        requires sound { IsSound self.now }
        requires is_id { IsId (ids self.now) id }
        requires is_match { is_match (table self.now) (row_of (ids self.now) id) ≡ true }
        ensures { result ≡ length (patterns_of (table self.now) (row_of (ids self.now) id)) };

    /// One of the patterns that a match row tells, by its place among them, which is below `match_len`.
    fn match_pattern(&self, id: StateID, index: usize) -> PatternID
        requires sound { IsSound self.now }
        requires is_id { IsId (ids self.now) id }
        requires is_match { is_match (table self.now) (row_of (ids self.now) id) ≡ true }
        requires within { index < length (patterns_of (table self.now) (row_of (ids self.now) id)) }
        ensures { result ≡ slice_index (patterns_of (table self.now) (row_of (ids self.now) id)) index };

    /// Whether every byte and the end mark lead from a match row to the dead row. `true` is certain: a search may
    /// end at the row. `false` means nothing.
    fn is_final_match(&self, id: StateID) -> bool
        requires sound { IsSound self.now }
        requires is_id { IsId (ids self.now) id }
        requires is_match { is_match (table self.now) (row_of (ids self.now) id) ≡ true }
        ensures { IsTrue result → IsFinal (table self.now) (row_of (ids self.now) id) };

    /// Whether some pattern matches without a byte.
    fn has_empty(&self) -> bool
        ensures { result ≡ (table self.now).has_empty };

    /// Whether matches that split a character of UTF-8 are passed over, where some pattern matches without a byte.
    fn is_utf8(&self) -> bool
        ensures { result ≡ (table self.now).is_utf8 };

    /// Whether every match begins at the text's edge.
    fn is_always_start_anchored(&self) -> bool
        ensures { result ≡ (table self.now).is_always_start_anchored };

    /// The bytes that lead elsewhere from an accelerated row. Of any other row there are none.
    fn accelerator(&self, id: StateID) -> Needles
        requires sound { IsSound self.now }
        requires is_id { IsId (ids self.now) id }
        ensures { result ≡ (table self.now).needles (row_of (ids self.now) id) };

    ghost are_ids: { (s : Self) → AreIds (table s).size (ids s) };

    ghost sound: { (s : Self) → IsSound s → IsSoundTable (table s) };

    /// The row in which a forward search of an input starts.
    final fn start_state_forward(&self, input: &Input<'_>) -> Result<StateID, MatchError>
        ensures { StartsSearch (table self.now) (ids self.now) Forward (query_of input.now) result }
    {
        match self.start_state(&Config::from_input_forward(input)) {
            Ok(id) => Ok(id),
            Err(error) => Err(error.of_search(input, Direction::Forward)),
        }
    }

    /// The row in which a search in reverse of an input starts.
    final fn start_state_reverse(&self, input: &Input<'_>) -> Result<StateID, MatchError>
        ensures { StartsSearch (table self.now) (ids self.now) Reverse (query_of input.now) result }
    {
        match self.start_state(&Config::from_input_reverse(input)) {
            Ok(id) => Ok(id),
            Err(error) => Err(error.of_search(input, Direction::Reverse)),
        }
    }

    /// The end of the match that a forward search of an input tells, where matches that split a character are
    /// passed over in UTF-8 mode.
    final fn try_search_fwd(&self, input: &Input<'_>) -> Result<Option<HalfMatch>, MatchError>
        requires sound { IsSound self.now }
        requires fits { IsFit (query_of input.now) }
        ensures answer { result ≡ half_unsplit (table self.now) Forward (query_of input.now) }
        // What is told lies in the span.
        ensures within { IfOk result (λ found. IfSome found (λ h. IsInSpan (query_of input.now) h.offset)) }
    {
        find_unsplit_fwd(self, input)
    }

    /// The start of the match that a search in reverse of an input tells, likewise.
    final fn try_search_rev(&self, input: &Input<'_>) -> Result<Option<HalfMatch>, MatchError>
        requires sound { IsSound self.now }
        requires fits { IsFit (query_of input.now) }
        ensures answer { result ≡ half_unsplit (table self.now) Reverse (query_of input.now) }
        // What is told lies in the span.
        ensures within { IfOk result (λ found. IfSome found (λ h. IsInSpan (query_of input.now) h.offset)) }
    {
        find_unsplit_rev(self, input)
    }

    /// Tells the next match of a forward overlapping search of an input, if there is one more. Matches that split
    /// a character are passed over in UTF-8 mode; of one in an anchored search a call tells nothing.
    final fn try_search_overlapping_fwd(
        &self,
        input: &Input<'_>,
        state: &mut OverlappingState,
    ) -> Result<(), MatchError>
        requires sound { IsSound self.now }
        requires fits { IsFit (query_of input.now) }
        requires state { Fits (table self.now) (ids self.now) (query_of input.now) state.old }
        ensures state { Fits (table self.now) (ids self.now) (query_of input.now) state.new }
        ensures told { IfSome state.new.told (IsTold (table self.now) (query_of input.now)) }
        ensures call { record {
          result = result;
          told = state.new.told;
          left = remaining_unsplit (table self.now) (ids self.now) Forward (query_of input.now) state.new;
        } ≡ next_call (remaining_unsplit (table self.now) (ids self.now) Forward (query_of input.now) state.old) }
    {
        find_overlapping_unsplit(self, input, Direction::Forward, state)
    }

    /// The same in reverse.
    final fn try_search_overlapping_rev(
        &self,
        input: &Input<'_>,
        state: &mut OverlappingState,
    ) -> Result<(), MatchError>
        requires sound { IsSound self.now }
        requires fits { IsFit (query_of input.now) }
        requires state { Fits (table self.now) (ids self.now) (query_of input.now) state.old }
        ensures state { Fits (table self.now) (ids self.now) (query_of input.now) state.new }
        ensures told { IfSome state.new.told (IsTold (table self.now) (query_of input.now)) }
        ensures call { record {
          result = result;
          told = state.new.told;
          left = remaining_unsplit (table self.now) (ids self.now) Reverse (query_of input.now) state.new;
        } ≡ next_call (remaining_unsplit (table self.now) (ids self.now) Reverse (query_of input.now) state.old) }
    {
        find_overlapping_unsplit(self, input, Direction::Reverse, state)
    }

    /// Adds to a set the patterns that a forward overlapping search of an input tells: up to the first call that
    /// tells nothing, until the set is full, or until the first where the input says that one will do. After an
    /// error those found so far stay.
    final fn try_which_overlapping_matches(
        &self,
        input: &Input<'_>,
        patset: &mut PatternSet,
    ) -> Result<(), MatchError>
        requires sound { IsSound self.now }
        requires fits { IsFit (query_of input.now) }
        requires capacity { (table self.now).pattern_len ≤ length patset.old }
        ensures { let q = query_of input.now in
            let matches = overlapping_unsplit (table self.now) Forward q in
            record { result = result; set = patset.new }
            ≡ collected q.earliest matches.items matches.ending patset.old }
    {
        which_overlapping_matches(self, input, patset)
    }
}

impl<A: Automaton> Automaton for &A {
    ghost table = { λ s. A.table s.now };

    ghost ids = { λ s. A.ids s.now };

    ghost IsSound = { λ s. A.IsSound s.now };

    ghost sound_fact = { λ s. A.sound_fact s.now };

    #[inline(always)]
    fn next_state(&self, current: StateID, input: u8) -> StateID {
        (**self).next_state(current, input)
    }

    #[inline(always)]
    fn next_eoi_state(&self, current: StateID) -> StateID {
        (**self).next_eoi_state(current)
    }

    fn leads_as_previous(&self, byte: u8) -> bool {
        (**self).leads_as_previous(byte)
    }

    #[inline(always)]
    fn prefers_several_places(&self) -> bool {
        (**self).prefers_several_places()
    }

    fn start_state(&self, config: &Config) -> Result<StateID, StartError> {
        (**self).start_state(config)
    }

    fn universal_start_state(&self, mode: Anchored) -> Option<StateID> {
        (**self).universal_start_state(mode)
    }

    #[inline(always)]
    fn is_special_state(&self, id: StateID) -> bool {
        (**self).is_special_state(id)
    }

    #[inline(always)]
    fn is_dead_state(&self, id: StateID) -> bool {
        (**self).is_dead_state(id)
    }

    #[inline(always)]
    fn is_quit_state(&self, id: StateID) -> bool {
        (**self).is_quit_state(id)
    }

    #[inline(always)]
    fn is_match_state(&self, id: StateID) -> bool {
        (**self).is_match_state(id)
    }

    #[inline(always)]
    fn is_start_state(&self, id: StateID) -> bool {
        (**self).is_start_state(id)
    }

    #[inline(always)]
    fn is_accel_state(&self, id: StateID) -> bool {
        (**self).is_accel_state(id)
    }

    fn pattern_len(&self) -> usize {
        (**self).pattern_len()
    }

    #[inline(always)]
    fn match_len(&self, id: StateID) -> usize {
        (**self).match_len(id)
    }

    #[inline(always)]
    fn match_pattern(&self, id: StateID, index: usize) -> PatternID {
        (**self).match_pattern(id, index)
    }

    #[inline(always)]
    fn is_final_match(&self, id: StateID) -> bool {
        (**self).is_final_match(id)
    }

    fn has_empty(&self) -> bool {
        (**self).has_empty()
    }

    fn is_utf8(&self) -> bool {
        (**self).is_utf8()
    }

    fn is_always_start_anchored(&self) -> bool {
        (**self).is_always_start_anchored()
    }

    #[inline(always)]
    fn accelerator(&self, id: StateID) -> Needles {
        (**self).accelerator(id)
    }

    ghost are_ids = { λ s. A.are_ids s.now };

    ghost sound = { λ s h. A.sound s.now h };
}
