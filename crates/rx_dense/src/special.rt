//! Which rows a search has to look at, by ranges of ids.

ghost use Rattle.std.specs.Prelude.{◌≡◌, ℕ, max, ◌==◌, ◌&&◌, not, nat_le};
ghost use Rattle.rx_dense.specs.Specials.{no_rows, greatest, is_quit_id, is_match_id, is_accel_id, is_start_id};

use rx_base::StateID;

/// The rows that a search has to look at, as ids: the quit row, and the first and the last of the match rows, of
/// the accelerated rows and of the rows marked as starts.
///
/// A range that begins and ends at 0 has no rows; row 0, which is dead, is in no range. Ids of special rows are at
/// most `max`, so one comparison tells whether a row is ordinary.
#[derive(Clone, Copy, Debug)]
pub struct Special {
    /// The greatest id of a special row.
    pub max: StateID,
    /// The row that ends a search at a byte that can't be searched; 0 where there is none yet.
    pub quit: StateID,
    /// The first match row.
    pub min_match: StateID,
    /// The last match row.
    pub max_match: StateID,
    /// The first accelerated row.
    pub min_accel: StateID,
    /// The last accelerated row.
    pub max_accel: StateID,
    /// The first row marked as a start.
    pub min_start: StateID,
    /// The last row marked as a start.
    pub max_start: StateID,
}

impl Special {
    /// No rows but the dead one.
    pub fn new() -> Special
        ensures { result ≡ no_rows }
    {
        Special {
            max: StateID::ZERO,
            quit: StateID::ZERO,
            min_match: StateID::ZERO,
            max_match: StateID::ZERO,
            min_accel: StateID::ZERO,
            max_accel: StateID::ZERO,
            min_start: StateID::ZERO,
            max_start: StateID::ZERO,
        }
    }

    /// Whether there are match rows.
    pub fn matches(&self) -> bool
        ensures { result ≡ not (self.now.min_match == 0) }
    {
        self.min_match != StateID::ZERO
    }

    /// Whether there are accelerated rows.
    pub fn accels(&self) -> bool
        ensures { result ≡ not (self.now.min_accel == 0) }
    {
        self.min_accel != StateID::ZERO
    }

    /// Whether there are rows marked as starts.
    pub fn starts(&self) -> bool
        ensures { result ≡ not (self.now.min_start == 0) }
    {
        self.min_start != StateID::ZERO
    }

    /// Sets `max` to the greatest id that the quit row and the ranges name.
    pub fn set_max(&mut self)
        ensures { self.new ≡ record self.old { max = greatest self.old } }
    {
        self.max = self
            .quit
            .max(self.max_match)
            .max(self.max_accel)
            .max(self.max_start);
    }

    /// Marks no rows as starts any more, and sets `max` to what is left.
    pub fn set_no_special_start_states(&mut self)
        ensures { self.new ≡ record self.old {
          min_start = 0;
          max_start = 0;
          max = greatest (record self.old { max_start = 0 });
        } }
    {
        self.min_start = StateID::ZERO;
        self.max_start = StateID::ZERO;
        self.set_max();
    }

    /// Whether an id is at most that of the last special row.
    #[inline(always)]
    pub(crate) fn is_special_state(&self, id: StateID) -> bool
        ensures { result ≡ nat_le id self.now.max }
    {
        id <= self.max
    }

    /// Whether an id is that of the quit row. A row in the range of match rows never is.
    pub(crate) fn is_quit_state(&self, id: StateID) -> bool
        ensures { result ≡ (is_quit_id self.now id && not (is_match_id self.now id)) }
    {
        id == self.quit && id != StateID::ZERO && !self.is_match_state(id)
    }

    /// Whether an id lies in the range of match rows.
    #[inline(always)]
    pub(crate) fn is_match_state(&self, id: StateID) -> bool
        ensures { result ≡ is_match_id self.now id }
    {
        self.min_match <= id && id <= self.max_match && id != StateID::ZERO
    }

    /// Whether an id lies in the range of accelerated rows.
    #[inline(always)]
    pub(crate) fn is_accel_state(&self, id: StateID) -> bool
        ensures { result ≡ is_accel_id self.now id }
    {
        self.min_accel <= id && id <= self.max_accel && id != StateID::ZERO
    }

    /// Whether an id lies in the range of rows marked as starts.
    #[inline(always)]
    pub(crate) fn is_start_state(&self, id: StateID) -> bool
        ensures { result ≡ is_start_id self.now id }
    {
        self.min_start <= id && id <= self.max_start && id != StateID::ZERO
    }
}
