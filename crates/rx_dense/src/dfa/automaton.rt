//! The table as an automaton.

ghost use Rattle.std.specs.Prelude.{◌≡◌, ℕ, ◌<◌, ◌≤◌, length, slice_index, true, option_map};
ghost use Rattle.rx_spec.specs.Causes.{max_id};
ghost use Rattle.rx_spec.specs.Ids.{row_of};
ghost use Rattle.rx_spec.specs.Tables.{is_match};
ghost use Rattle.rx_spec.specs.Starts.{mode_error, start_context, start_error};
ghost use Rattle.rx_base.specs.Search.{mode_of};
ghost use Rattle.rx_lemmas.proofs.Ids.{dense_are_ids};
ghost use Rattle.rx_search.specs.Labels.{patterns_of};
ghost use Rattle.rx_search.specs.Starts.{IsId, refusal_of};
ghost use Rattle.rx_dense.specs.Layouts.{AreLists, ids_of, row_count, settings_of, table_of, universal_id};
ghost use Rattle.rx_dense.specs.Facts.{IsSoundLayout, IsSoundLayout-fact};

use crate::accel::needles_of;
use crate::{DFA, WordStore};
use rx_base::start::Config;
use rx_base::{Anchored, Needles, PatternID, Start, StateID};
use rx_search::{Automaton, StartError};

impl<T: WordStore> DFA<T> {
    /// The patterns that a match row tells, lent from where they stand.
    #[inline(always)]
    pub fn patterns(&self, id: StateID) -> &[u32]
        requires sound { IsSoundLayout self.now }
        requires is_id { IsId (ids_of self.now) id }
        requires is_match { is_match (table_of self.now) (row_of (ids_of self.now) id) ≡ true }
        ensures value { result.now ≡ patterns_of (table_of self.now) (row_of (ids_of self.now) id) }
        ensures are_ids { (k : ℕ) → k < length result.now → slice_index result.now k ≤ max_id }
    {
        let place = self.place_in_range(self.special().min_match, id);
        let slices = self.slices();
        let start = slices[2 * place] as usize;
        let len = slices[2 * place + 1] as usize;
        &self.pattern_ids()[start..start + len]
    }

    /// The start context that the byte beside a span gives, where there is one.
    fn context_beside(&self, byte: Option<u8>) -> Start
        ensures { result ≡ start_context (settings_of self.now) byte }
    {
        match byte {
            None => Start::Text,
            Some(byte) => self.start_context(byte),
        }
    }

    /// Why a search beside a byte and in a mode doesn't start.
    fn start_error(&self, config: &Config) -> Option<StartError>
        ensures { option_map refusal_of result
            ≡ start_error (settings_of self.now) config.now.beside config.now.mode }
    {
        match config.get_look_behind() {
            None => self.mode_error(config.get_anchored()),
            Some(byte) => {
                if self.quitset().contains(byte) {
                    Some(StartError::Quit { byte })
                } else {
                    self.mode_error(config.get_anchored())
                }
            }
        }
    }

    /// That a mode has no starts.
    fn mode_error(&self, mode: Anchored) -> Option<StartError>
        ensures { option_map refusal_of result ≡ mode_error (settings_of self.now) (mode_of mode) }
    {
        let supported = match mode {
            Anchored::No => self.start_kind().has_unanchored(),
            Anchored::Yes => self.start_kind().has_anchored(),
            Anchored::Pattern(_) => self.starts_for_each_pattern(),
        };
        if supported {
            None
        } else {
            Some(StartError::UnsupportedAnchored { mode })
        }
    }

    /// The universal start of a mode, as it is kept.
    fn universal_id(&self, mode: Anchored) -> Option<StateID>
        ensures { result ≡ universal_id self.now (mode_of mode) }
    {
        match mode {
            Anchored::No => self.universal_unanchored,
            Anchored::Yes => self.universal_anchored,
            Anchored::Pattern(_) => None,
        }
    }
}

impl<T: WordStore> Automaton for DFA<T> {
    ghost table = { table_of };

    ghost ids = { ids_of };

    ghost IsSound = { IsSoundLayout };

    ghost sound_fact = { IsSoundLayout-fact };

    #[inline(always)]
    fn next_state(&self, current: StateID, input: u8) -> StateID {
        let class = self.byte_classes().get(input) as usize;
        self.entry(current, class)
    }

    #[inline(always)]
    fn next_eoi_state(&self, current: StateID) -> StateID {
        self.entry(current, self.alphabet_len() - 1)
    }

    fn leads_as_previous(&self, byte: u8) -> bool {
        let classes = self.byte_classes();
        byte > 0 && classes.get(byte) == classes.get(byte - 1)
    }

    #[inline(always)]
    fn prefers_several_places(&self) -> bool {
        true
    }

    fn start_state(&self, config: &Config) -> Result<StateID, StartError> {
        match self.start_error(config) {
            Some(error) => Err(error),
            None => Ok(self.start(
                config.get_anchored(),
                self.context_beside(config.get_look_behind()),
            )),
        }
    }

    fn universal_start_state(&self, mode: Anchored) -> Option<StateID> {
        match self.universal_id(mode) {
            None => None,
            Some(id) => { if self.is_valid(id) { Some(id) } else { None } }
        }
    }

    #[inline(always)]
    fn is_special_state(&self, id: StateID) -> bool {
        self.special().is_special_state(id)
    }

    #[inline(always)]
    fn is_dead_state(&self, id: StateID) -> bool {
        id == StateID::ZERO
    }

    #[inline(always)]
    fn is_quit_state(&self, id: StateID) -> bool {
        self.special().is_quit_state(id)
    }

    #[inline(always)]
    fn is_match_state(&self, id: StateID) -> bool {
        self.special().is_match_state(id)
    }

    #[inline(always)]
    fn is_start_state(&self, id: StateID) -> bool {
        self.special().is_start_state(id)
    }

    #[inline(always)]
    fn is_accel_state(&self, id: StateID) -> bool {
        self.special().is_accel_state(id)
    }

    fn pattern_len(&self) -> usize
        ensures value { result ≡ self.now.pattern_len }
        ensures lists { AreLists self.now }
    {
        self.pattern_len
    }

    #[inline(always)]
    fn match_len(&self, id: StateID) -> usize {
        self.patterns(id).len()
    }

    #[inline(always)]
    fn match_pattern(&self, id: StateID, index: usize) -> PatternID {
        if index == 0 {
            if let Some((pattern, _)) = self.mark(id) {
                return pattern;
            }
        }
        PatternID::must(self.patterns(id)[index] as usize)
    }

    #[inline(always)]
    fn is_final_match(&self, id: StateID) -> bool {
        match self.mark(id) {
            Some((_, is_final)) => is_final,
            None => false,
        }
    }

    fn has_empty(&self) -> bool {
        self.flags.has_empty
    }

    fn is_utf8(&self) -> bool {
        self.flags.is_utf8
    }

    fn is_always_start_anchored(&self) -> bool {
        self.flags.is_always_start_anchored
    }

    #[inline(always)]
    fn accelerator(&self, id: StateID) -> Needles {
        if !self.special().is_accel_state(id) {
            return Needles::new(&[]);
        }
        let place = self.place_in_range(self.special().min_accel, id);
        needles_of(self.accel_words()[2 * place])
    }

    ghost are_ids = { λ l. dense_are_ids (row_count l) l.stride2 };

    ghost sound = { λ l h. h };
}
