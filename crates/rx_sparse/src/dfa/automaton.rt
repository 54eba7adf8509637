//! Sparse tables are automata.

ghost use Rattle.std.specs.Prelude.{◌≡◌, nat_le, option_map};
ghost use Rattle.rx_spec.specs.Ids.{row_of};
ghost use Rattle.rx_spec.specs.Starts.{mode_error, start_context, start_error};
ghost use Rattle.rx_base.specs.Search.{mode_of};
ghost use Rattle.rx_search.specs.Starts.{IsId, refusal_of};
ghost use Rattle.rx_dense.specs.Specials.{is_in_range, is_quit_id};
ghost use Rattle.rx_sparse.specs.Layouts.{ids_of, settings_of, table_of};
ghost use Rattle.rx_sparse.specs.Facts.{IsSoundLayout, IsSoundLayout-fact, offsets_are_ids};

use crate::{ByteStore, DFA};
use rx_base::start::Config;
use rx_base::{Anchored, Needles, PatternID, Start, StateID};
use rx_dense::Special;
use rx_search::{Automaton, StartError};

impl<T: ByteStore> DFA<T> {
    /// The start context for the byte beside a span, if there is one.
    fn context_beside(&self, byte: Option<u8>) -> Start
        ensures { result ≡ start_context (settings_of self.now.layout) byte }
    {
        match byte {
            None => Start::Text,
            Some(byte) => self.start_context(byte),
        }
    }

    /// Why a search in a mode beside a byte doesn't start.
    fn start_error(&self, config: &Config) -> Option<StartError>
        ensures { option_map refusal_of result
            ≡ start_error (settings_of self.now.layout) config.now.beside config.now.mode }
    {
        match config.get_look_behind() {
            None => self.mode_error(config.get_anchored()),
            Some(byte) => {
                if self.quitset().contains(byte) {
                    Some(StartError::Quit { byte })
                } else {
                    self.mode_error(config.get_anchored())
                }
            }
        }
    }

    /// The error of a mode without start states.
    fn mode_error(&self, mode: Anchored) -> Option<StartError>
        ensures { option_map refusal_of result ≡ mode_error (settings_of self.now.layout) (mode_of mode) }
    {
        let supported = match mode {
            Anchored::No => self.start_kind().has_unanchored(),
            Anchored::Yes => self.start_kind().has_anchored(),
            Anchored::Pattern(_) => self.starts_for_each_pattern(),
        };
        if supported {
            None
        } else {
            Some(StartError::UnsupportedAnchored { mode })
        }
    }
}

impl<T: ByteStore> Automaton for DFA<T> {
    ghost table = { λ s. table_of s.layout };

    ghost ids = { λ s. ids_of s.layout };

    ghost IsSound = { λ s. IsSoundLayout s.layout };

    ghost sound_fact = { λ s. IsSoundLayout-fact s.layout };

    #[inline(always)]
    fn next_state(&self, current: StateID, input: u8) -> StateID {
        let class = self.byte_classes().get(input);
        self.state(current).next(class)
    }

    #[inline(always)]
    fn next_eoi_state(&self, current: StateID) -> StateID {
        self.state(current).next_eoi()
    }

    fn leads_as_previous(&self, byte: u8) -> bool {
        let classes = self.byte_classes();
        byte > 0 && classes.get(byte) == classes.get(byte - 1)
    }

    #[inline(always)]
    fn prefers_several_places(&self) -> bool {
        false
    }

    fn start_state(&self, config: &Config) -> Result<StateID, StartError> {
        match self.start_error(config) {
            Some(error) => Err(error),
            None => Ok(self.start(
                config.get_anchored(),
                self.context_beside(config.get_look_behind()),
            )),
        }
    }

    fn universal_start_state(&self, mode: Anchored) -> Option<StateID> {
        let (unanchored, anchored) = self.universal_starts();
        match mode {
            Anchored::No => unanchored,
            Anchored::Yes => anchored,
            Anchored::Pattern(_) => None,
        }
    }

    #[inline(always)]
    fn is_special_state(&self, id: StateID) -> bool {
        is_special_id(self.special(), id)
    }

    #[inline(always)]
    fn is_dead_state(&self, id: StateID) -> bool {
        id == StateID::ZERO
    }

    #[inline(always)]
    fn is_quit_state(&self, id: StateID) -> bool {
        is_quit_id(self.special(), id) && !self.is_match_state(id)
    }

    #[inline(always)]
    fn is_match_state(&self, id: StateID) -> bool {
        is_in_range(self.special().min_match, self.special().max_match, id)
    }

    #[inline(always)]
    fn is_start_state(&self, id: StateID) -> bool {
        is_in_range(self.special().min_start, self.special().max_start, id)
    }

    #[inline(always)]
    fn is_accel_state(&self, id: StateID) -> bool {
        is_in_range(self.special().min_accel, self.special().max_accel, id)
    }

    fn pattern_len(&self) -> usize {
        self.parts.pattern_len
    }

    #[inline(always)]
    fn match_len(&self, id: StateID) -> usize {
        self.state(id).pattern_len()
    }

    #[inline(always)]
    fn match_pattern(&self, id: StateID, index: usize) -> PatternID {
        self.state(id).pattern(index)
    }

    #[inline(always)]
    fn is_final_match(&self, _id: StateID) -> bool {
        false
    }

    fn has_empty(&self) -> bool {
        self.flags().has_empty
    }

    fn is_utf8(&self) -> bool {
        self.flags().is_utf8
    }

    fn is_always_start_anchored(&self) -> bool {
        self.flags().is_always_start_anchored
    }

    #[inline(always)]
    fn accelerator(&self, id: StateID) -> Needles {
        self.state(id).needles()
    }

    ghost are_ids = { λ s. offsets_are_ids s.layout.rows };

    ghost sound = { λ s h. h };
}

/// Whether an id lies in a range of ids. The dead state's id, 0, lies in none.
#[inline(always)]
fn is_in_range(first: StateID, last: StateID, id: StateID) -> bool
    ensures { result ≡ is_in_range first last id }
{
    first <= id && id <= last && id != StateID::ZERO
}

/// Whether an id is that of the quit state, whatever range it lies in.
#[inline(always)]
fn is_quit_id(special: &Special, id: StateID) -> bool
    ensures { result ≡ is_quit_id special.now id }
{
    id == special.quit && id != StateID::ZERO
}

/// Whether an id is at most that of the last special state.
#[inline(always)]
fn is_special_id(special: &Special, id: StateID) -> bool
    ensures { result ≡ nat_le id special.now.max }
{
    id <= special.max
}
