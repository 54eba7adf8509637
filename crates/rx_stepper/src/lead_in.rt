//! The lead-in: the rows of the unanchored start, with which most states of an unanchored search end.

ghost use Rattle.std.specs.Prelude.{◌≡◌, ℕ, ◌<◌, ◌≤◌, ◌^◌, ◌==◌, ◌&&◌, ◌++◌, ◌∷◌, [], true, false, not, Some};
ghost use Rattle.std.specs.Prelude.{take, length, slice_get, slice_index_or, vec_capacity};
ghost use Rattle.std.specs.Prelude.{MatchBool, MatchOption, IfOk, IfSome, OnOk};
ghost use Rattle.std.specs.List.{list_any, AllByRecursion as Every};
ghost use Rattle.std.specs.Str.{bytes_eq};
ghost use Rattle.rx_spec.specs.Builds.{is_dead_state};
ghost use Rattle.rx_spec.specs.Causes.{id_count, max_id};
ghost use Rattle.rx_spec.specs.States.{Standing, firsts, is_look_row, row_at};
ghost use Rattle.rx_base.specs.FactBits.{bits_of, facts_with};
ghost use Rattle.rx_expr.specs.Nfa.{meaning};
ghost use Rattle.rx_spec.specs.Closures.{closed_rows};
ghost use Rattle.rx_stepper.specs.Leads.{lead_of, led, rows_by, split_by, without, written, written_as, IsLeast};
ghost use Rattle.rx_stepper.specs.Places.{no_place, ArePlaces, AreMetTo};
ghost use Rattle.rx_stepper.specs.Stamps.{is_met};
ghost use Rattle.rx_stepper.specs.Steps.{made, IsMadeKey};

use crate::closures::{Closures, Passing};
use crate::joined::Joined;
use crate::keys;
use crate::matches::is_among;
use rx_base::{PatternID, StateID};
use std::alloc::{AllocError, Global};

/// The rows of the unanchored start. The keys of states that end with them don't repeat them.
#[derive(Drop)]
pub(crate) struct LeadIn {
    /// Where an unanchored search starts.
    pub(crate) start: StateID,
    /// The rows that are reached from the unanchored start without reading a byte. Empty if every search is anchored.
    pub(crate) rows: Vec<StateID>,
    /// For each row of the NFA, its index among them, or a number past their end.
    places: Vec<u32>,
    /// Whether one of them asserts.
    pub(crate) asks: bool,
    ghost places_are: { ArePlaces rows.items places.items },
    ghost once: { firsts rows.items ≡ rows.items },
    ghost few: { length rows.items ≤ id_count },
}

impl LeadIn {
    ghost use Rattle.rx_stepper.specs.LeadIns.{IsLeadIn};

    /// The lead-in of an NFA. `reached` must have room for all its rows.
    pub(crate) fn new(
        alloc: Global,
        closures: &mut Closures<'_>,
        reached: &mut Vec<StateID>,
    ) -> Result<LeadIn, AllocError>
        requires { length (meaning closures.old.nfa.now).rows ≤ vec_capacity reached.old }
        ensures nfa { closures.new.nfa.now ≡ closures.old.nfa.now }
        ensures room { vec_capacity reached.old ≤ vec_capacity reached.new }
        ensures is { IfOk result (IsLeadIn (meaning closures.old.nfa.now)) }
    {
        list_lead_in(closures, reached);
        Ok(LeadIn {
            start: closures.nfa.start_unanchored(),
            places: places_of(alloc, reached, closures.thin.len())?,
            asks: closures.has_look(reached),
            rows: reached.to_vec(alloc)?,
        })
    }

    /// Writes the key of the state that is reached from some rows, with facts about the last unit and a label. Returns
    /// whether there is a key: the dead state has none.
    pub(crate) fn write_key(
        &self,
        closures: &mut Closures<'_>,
        from: Joined<'_>,
        asked: u8,
        label: &[PatternID],
        own: &mut Vec<StateID>,
        key: &mut Vec<u32>,
    ) -> Result<bool, AllocError>
        requires is { IsLeadIn (meaning closures.old.nfa.now) self.now }
        requires room { length (meaning closures.old.nfa.now).rows ≤ vec_capacity own.old }
        requires asked { asked ≡ bits_of (facts_with asked) }
        requires label { length label.now < 2 ^ 32 }
        ensures nfa { closures.new.nfa.now ≡ closures.old.nfa.now }
        ensures room { vec_capacity own.old ≤ vec_capacity own.new }
        ensures key { let nfa = meaning closures.old.nfa.now in
            let rows = from.entry.first.now ++ from.entry.second.now in
            IfOk result (λ goes_on. MatchBool goes_on
            (IsMadeKey nfa rows (facts_with asked) label.now key.new.items)
            (is_dead_state (made nfa rows (facts_with asked) label.now) ≡ true)) }
    {
        let is_led = self.close(closures, from, own);
        if keys::is_dead(is_led, own, label) {
            return Ok(false);
        }
        let head = keys::Head {
            context: keys::kept(self.has_look(closures, own, is_led), asked),
            is_led,
        };
        keys::write(head, label, own, key)?;
        Ok(true)
    }

    /// Lists the rows of the closure of some rows that must be written. Returns whether the other rows of the lead-in
    /// follow.
    fn close(&self, closures: &mut Closures<'_>, from: Joined<'_>, own: &mut Vec<StateID>) -> bool
        requires is { IsLeadIn (meaning closures.old.nfa.now) self.now }
        requires room { length (meaning closures.old.nfa.now).rows ≤ vec_capacity own.old }
        ensures nfa { closures.new.nfa.now ≡ closures.old.nfa.now }
        ensures room { vec_capacity own.old ≤ vec_capacity own.new }
        ensures rows { let nfa = meaning closures.old.nfa.now in
            written (lead_of nfa) (closed_rows nfa.rows Standing (from.entry.first.now ++ from.entry.second.now))
            ≡ written_as result own.new.items }
        ensures few { length own.new.items ≤ id_count }
        ensures ids { Every (λ q. q < id_count) own.new.items }
    {
        if let Some(front) = self.front(from) {
            closures.list_joined(front, &Passing::Standing, own);
            let len = self.own_len(own, self.met_len(closures));
            own.truncate(len);
            return true;
        }
        closures.list_joined(from, &Passing::Standing, own);
        self.split(closures, own)
    }

    /// The rows before the unanchored start, if it is the last of some rows and there is a lead-in.
    fn front<'r>(&self, from: Joined<'r>) -> Option<Joined<'r>>
        ensures start { IfSome result (λ front. from.entry.first.now ++ from.entry.second.now
            ≡ (front.first.now ++ front.second.now) ++ self.now.start ∷ []) }
        ensures some { IfSome result (λ front. 0 < length self.now.rows.items) }
    {
        if let Some((last, second)) = from.second.split_last() {
            let first = from.first;
            return self.is_start(*last).then_some(Joined { first, second });
        }
        let (last, first) = from.first.split_last()?;
        self.is_start(*last)
            .then_some(Joined { first, second: &[] })
    }

    /// Whether a row is the unanchored start and there is a lead-in.
    fn is_start(&self, row: StateID) -> bool
        ensures { result ≡ ((row == self.now.start) && not (length self.now.rows.items == 0)) }
    {
        row == self.start && !self.rows.is_empty()
    }

    /// The number of the lead-in's rows, from the first on, that were listed last.
    fn met_len(&self, closures: &Closures<'_>) -> usize
        ensures { let stamps = closures.now.stamps in
            AreMetTo (is_met stamps.stamps.items stamps.now) self.now.rows.items result }
    {
        for (place, row) in self.rows.iter().enumerate() {
            if !closures.is_met(*row) {
                return place;
            }
        }
        self.rows.len()
    }

    /// How many rows must be written so that they and the other rows of the lead-in make the same list. Trailing rows
    /// that the lead-in adds again are left out. `met` is how many of the lead-in's first rows are among `own`.
    fn own_len(&self, own: &[StateID], met: usize) -> usize
        requires once { firsts own.now ≡ own.now }
        requires met { AreMetTo (λ q. list_any (λ x. q == x) own.now) self.now.rows.items met }
        ensures within { result ≤ length own.now }
        ensures same { led (take result own.now) self.now.rows.items ≡ led own.now self.now.rows.items }
        ensures least { IsLeast self.now.rows.items (take result own.now) }
    {
        let mut met = met;
        let mut len = own.len();
        while len > 0 {
            let place = self.place(own[len - 1].as_usize());
            if place >= met {
                return len;
            }
            met = place;
            len -= 1;
        }
        0
    }

    /// The index of a row in the lead-in, or a number past its end.
    #[inline]
    fn place(&self, row: usize) -> usize
        ensures { result ≡ slice_index_or self.now.places.items row no_place }
    {
        match self.places.get(row) {
            Some(place) => *place as usize,
            None => NO_PLACE as usize,
        }
    }

    /// Cuts off the rows of the lead-in at the end of a list: the shortest front of rows remains after which the other
    /// rows of the lead-in follow. Returns whether there is such a front.
    ///
    /// From rows other than the unanchored start a compiled NFA never reaches the last row of the lead-in, so then
    /// there is nothing to search.
    fn split(&self, closures: &Closures<'_>, own: &mut Vec<StateID>) -> bool
        requires { let stamps = closures.now.stamps in
            Every (λ q. is_met stamps.stamps.items stamps.now q ≡ list_any (λ x. q == x) own.old.items)
            self.now.rows.items }
        ensures room { vec_capacity own.old ≤ vec_capacity own.new }
        ensures rows { written self.now.rows.items own.old.items ≡ written_as result own.new.items }
        ensures front { own.new.items ≡ take (length own.new.items) own.old.items }
    {
        match self.rows.last() {
            Some(last) => {
                if !closures.is_met(*last) {
                    return false;
                }
            }
            None => return false,
        }
        match self.split_len(own) {
            Some(len) => {
                own.truncate(len);
                true
            }
            None => false,
        }
    }

    /// The least number of rows before the other rows of the lead-in.
    fn split_len(&self, rows: &[StateID]) -> Option<usize>
        ensures { let lead = self.now.rows.items in
            MatchOption result (split_by lead [] rows.now ≡ written_as false rows.now)
            (λ len. split_by lead [] rows.now ≡ written_as true (take len rows.now)) }
    {
        for len in 0..rows.len() + 1 {
            if self.follows(&rows[..len], &rows[len..]) {
                return Some(len);
            }
        }
        None
    }

    /// Whether `rows` are those of the lead-in that aren't among `own`.
    fn follows(&self, own: &[StateID], rows: &[StateID]) -> bool
        ensures { result ≡ bytes_eq (without own.now self.now.rows.items) rows.now }
    {
        let mut place = 0;
        for row in &self.rows {
            if !is_among(own, *row) {
                if place >= rows.len() {
                    return false;
                }
                if rows[place] != *row {
                    return false;
                }
                place += 1;
            }
        }
        place == rows.len()
    }

    /// Whether some row of a state asserts.
    fn has_look(&self, closures: &Closures<'_>, own: &[StateID], is_led: bool) -> bool
        requires { IsLeadIn (meaning closures.now.nfa.now) self.now }
        ensures { result ≡ list_any (λ q. is_look_row (row_at (meaning closures.now.nfa.now).rows q))
            (rows_by self.now.rows.items is_led own.now) }
    {
        if is_led && self.asks {
            true
        } else {
            closures.has_look(own)
        }
    }

    /// Whether a row is in the lead-in, by its number.
    fn has(&self, row: u32) -> bool
        ensures { result ≡ list_any (λ x. row == x) self.now.rows.items }
    {
        self.place(row as usize) < self.rows.len()
    }

    /// The number of rows of a state whose key has the rows `own`.
    pub(crate) fn rows_len(&self, own: &[u32], is_led: bool) -> usize
        requires once { firsts own.now ≡ own.now }
        requires few { length own.now ≤ id_count }
        ensures { result ≡ length (rows_by self.now.rows.items is_led own.now) }
    {
        if !is_led {
            return own.len();
        }
        let mut others = self.rows.len();
        for row in own {
            if self.has(*row) {
                others -= 1;
            }
        }
        own.len() + others
    }
}

/// The index of a row that isn't in the lead-in.
const NO_PLACE: u32 = u32::MAX;

/// Lists the rows of an NFA's unanchored start. Lists none if every search is anchored.
fn list_lead_in(closures: &mut Closures<'_>, reached: &mut Vec<StateID>)
    requires { length (meaning closures.old.nfa.now).rows ≤ vec_capacity reached.old }
    ensures nfa { closures.new.nfa.now ≡ closures.old.nfa.now }
    ensures room { vec_capacity reached.old ≤ vec_capacity reached.new }
    ensures rows { reached.new.items ≡ lead_of (meaning closures.old.nfa.now) }
    ensures few { length reached.new.items ≤ id_count }
    ensures ids { Every (λ q. q < id_count) reached.new.items }
{
    if closures.nfa.is_always_start_anchored() {
        reached.clear();
    } else {
        let start = closures.nfa.start_unanchored();
        closures.list(&[start], &Passing::Standing, reached);
    }
}

/// For each row of the NFA, its index in the lead-in.
fn places_of(alloc: Global, rows: &[StateID], count: usize) -> Result<Vec<u32>, AllocError>
    requires within { Every (λ q. q < count) rows.now }
    requires once { firsts rows.now ≡ rows.now }
    requires few { length rows.now ≤ id_count }
    ensures { IfOk result (λ places. ArePlaces rows.now places.items) }
{
    let mut places = vec![in alloc; NO_PLACE; count]?;
    for (place, row) in rows.iter().enumerate() {
        places[row.as_usize()] = place as u32;
    }
    Ok(places)
}
