//! Closures: the NFA rows that are reached without reading a byte, in memory that is taken once.

ghost use Rattle.std.specs.Prelude.{◌≡◌, ℕ, ◌+◌, ◌<◌, ◌≤◌, ◌==◌, ◌++◌, ◌∷◌, [], true, false, length, reverse, IfOk};
ghost use Rattle.std.specs.Prelude.{vec_capacity, IfNone};
ghost use Rattle.std.specs.List.{flat_map, list_any, AllByRecursion as Every};
ghost use Rattle.rx_spec.specs.Causes.{id_count};
ghost use Rattle.rx_spec.specs.Contexts.{holds_read};
ghost use Rattle.rx_spec.specs.States.{closure, fresh, row_at, is_look_row};
ghost use Rattle.rx_spec.specs.Closures.{own_by, branches_by, closed_rows};
ghost use Rattle.rx_expr.specs.Nfa.{meaning};
ghost use Rattle.rx_stepper.specs.Searches.{IsSearched, ReachesItself, in_turn};
ghost use Rattle.rx_stepper.specs.Stamps.{is_met};
ghost use Rattle.rx_stepper.specs.ThinRows.{row_of_thin, thin_at, AreThin, passing_of};

use crate::joined::Joined;
use crate::stamps::Stamps;
use crate::thin_row::{ThinRow, thin_rows};
use rx_base::{Direction, Facts, Look, StateID};
use rx_expr::thompson::NFA;
use std::alloc::{AllocError, Global};

/// What to do with an assertion.
#[derive(Clone, Copy)]
pub(crate) enum Passing {
    /// Keep it: it is decided when the next unit is known.
    Standing,
    /// Pass it if it holds between the last unit and the next one.
    Tested {
        last: Facts,
        next: Facts,
        direction: Direction,
    },
}

/// Whether an assertion holds, in the order of reading.
fn holds(look: Look, last: Facts, next: Facts, direction: Direction) -> bool
    ensures { result ≡ holds_read direction look last next }
{
    match direction {
        Direction::Forward => Facts::decide(look, last, next),
        Direction::Reverse => Facts::decide(look, next, last),
    }
}

/// Lists closures of an NFA's rows.
#[derive(Drop)]
pub(crate) struct Closures<'n> {
    pub(crate) nfa: &'n NFA,
    pub(crate) thin: Vec<ThinRow>,
    stamps: Stamps,
    /// The rows that the search still has to visit after the current one, the next of them last.
    waiting: Vec<StateID>,
    /// Whether some row of the NFA is an assertion.
    asks: bool,
    ghost looks: { asks ≡ false → (q : ℕ) → is_look_row (row_at (meaning nfa.now).rows q) ≡ false },
    ghost thin_rows: { AreThin thin.items (meaning nfa.now).rows },
    ghost thin_len: { length thin.items ≡ length (meaning nfa.now).rows },
    ghost stamps_len: { length stamps.stamps.items ≡ length (meaning nfa.now).rows },
    ghost room: { length (meaning nfa.now).rows ≤ vec_capacity waiting },
}

impl<'n> Closures<'n> {
    /// Takes the memory that closures of an NFA's rows need.
    pub(crate) fn new(alloc: Global, nfa: &'n NFA) -> Result<Closures<'n>, AllocError>
        ensures { IfOk result (λ c. c.nfa.now ≡ nfa.now) }
    {
        let thin = thin_rows(alloc, nfa)?;
        let stamps = Stamps::new(alloc, thin.len())?;
        let waiting = Vec::with_capacity(alloc, thin.len())?;
        let asks = thin.iter().any(|row| row.is_look());
        Ok(Closures {
            nfa,
            thin,
            stamps,
            waiting,
            asks,
        })
    }

    /// Lists the rows that are reached from `from` without reading a byte: each once, the preferred first. `found` must
    /// have room for all rows. Afterwards `is_met` says which rows were listed that stand for themselves.
    pub(crate) fn list(&mut self, from: &[StateID], passing: &Passing, found: &mut Vec<StateID>)
        requires { length (meaning self.old.nfa.now).rows ≤ vec_capacity found.old }
        ensures nfa { self.new.nfa.now ≡ self.old.nfa.now }
        ensures room { vec_capacity found.old ≤ vec_capacity found.new }
        ensures rows { let rows = (meaning self.old.nfa.now).rows in
            found.new.items ≡ closed_rows rows (passing_of passing.now) from.now }
        ensures few { length found.new.items ≤ id_count }
        ensures ids { Every (λ q. q < id_count) found.new.items }
        ensures met { let rows = (meaning self.old.nfa.now).rows in
            (q : ℕ) → closure rows (passing_of passing.now) q ≡ q ∷ []
            → is_met self.new.stamps.stamps.items self.new.stamps.now q
            ≡ list_any (λ x. q == x) found.new.items }
    {
        let from = Joined {
            first: from,
            second: &[],
        };
        self.list_joined(from, passing, found);
    }

    /// Lists the rows that are reached from two lists of rows, the second after the first, as `list` does from one.
    pub(crate) fn list_joined(
        &mut self,
        from: Joined<'_>,
        passing: &Passing,
        found: &mut Vec<StateID>,
    )
        requires { length (meaning self.old.nfa.now).rows ≤ vec_capacity found.old }
        ensures nfa { self.new.nfa.now ≡ self.old.nfa.now }
        ensures room { vec_capacity found.old ≤ vec_capacity found.new }
        ensures rows { let rows = (meaning self.old.nfa.now).rows in
            let both = from.entry.first.now ++ from.entry.second.now in
            found.new.items ≡ closed_rows rows (passing_of passing.now) both }
        ensures few { length found.new.items ≤ id_count }
        ensures ids { Every (λ q. q < id_count) found.new.items }
        ensures met { let rows = (meaning self.old.nfa.now).rows in
            (q : ℕ) → closure rows (passing_of passing.now) q ≡ q ∷ []
            → is_met self.new.stamps.stamps.items self.new.stamps.now q
            ≡ list_any (λ x. q == x) found.new.items }
    {
        self.stamps.begin();
        self.waiting.clear();
        found.clear();
        self.add(from.first, passing, found);
        self.add(from.second, passing, found);
    }

    /// Lists the rows that some rows reach and that aren't listed yet.
    fn add(&mut self, from: &[StateID], passing: &Passing, found: &mut Vec<StateID>)
        requires waiting { self.old.waiting.items ≡ [] }
        requires room { length (meaning self.old.nfa.now).rows ≤ vec_capacity found.old }
        requires searched { let rows = (meaning self.old.nfa.now).rows in
            let stamps = self.old.stamps in
            IsSearched rows (passing_of passing.now) stamps.stamps.items stamps.now found.old.items }
        ensures nfa { self.new.nfa.now ≡ self.old.nfa.now }
        ensures waiting { self.new.waiting.items ≡ [] }
        ensures room { vec_capacity found.old ≤ vec_capacity found.new }
        ensures rows { let rows = (meaning self.old.nfa.now).rows in
            let reached = flat_map (closure rows (passing_of passing.now)) from.now in
            found.new.items ≡ found.old.items ++ fresh found.old.items reached }
        ensures searched { let rows = (meaning self.old.nfa.now).rows in
            let stamps = self.new.stamps in
            IsSearched rows (passing_of passing.now) stamps.stamps.items stamps.now found.new.items }
    {
        'each: for row in from {
            let row = *row;
            if self.stops(row) {
                if self.stamps.is_first(row) {
                    put(found, row);
                }
            } else {
                self.search(row, passing, found);
            }
        }
    }

    /// Whether a search ends at this row at once, as at most rows, and so needs no stack.
    #[inline]
    fn stops(&self, row: StateID) -> bool
        ensures itself { result ≡ true → ReachesItself (meaning self.now.nfa.now).rows row }
        ensures bound { row < id_count }
    {
        match self.thin.get(row.as_usize()) {
            Some(thin) => thin.is_end(),
            None => false,
        }
    }

    /// Lists the rows that one row reaches and that aren't listed yet.
    fn search(&mut self, row: StateID, passing: &Passing, found: &mut Vec<StateID>)
        requires waiting { self.old.waiting.items ≡ [] }
        requires room { length (meaning self.old.nfa.now).rows ≤ vec_capacity found.old }
        requires searched { let rows = (meaning self.old.nfa.now).rows in
            let stamps = self.old.stamps in
            IsSearched rows (passing_of passing.now) stamps.stamps.items stamps.now found.old.items }
        ensures nfa { self.new.nfa.now ≡ self.old.nfa.now }
        ensures waiting { self.new.waiting.items ≡ [] }
        ensures room { vec_capacity found.old ≤ vec_capacity found.new }
        ensures rows { let reached = closure (meaning self.old.nfa.now).rows (passing_of passing.now) row in
            found.new.items ≡ found.old.items ++ fresh found.old.items reached }
        ensures searched { let rows = (meaning self.old.nfa.now).rows in
            let stamps = self.new.stamps in
            IsSearched rows (passing_of passing.now) stamps.stamps.items stamps.now found.new.items }
    {
        let mut next = Some(row);
        'search: while let Some(id) = next {
            if self.stamps.is_first(id) {
                let hand = enter(
                    self.thin[id.as_usize()],
                    id,
                    passing,
                    found,
                    &mut self.waiting,
                );
                next = hand_or_top(hand, &mut self.waiting);
            } else {
                next = self.waiting.pop();
            }
        }
    }

    /// Whether a row that stands for itself was listed by the last call.
    pub(crate) fn is_met(&self, row: StateID) -> bool
        ensures { result ≡ is_met self.now.stamps.stamps.items self.now.stamps.now row }
    {
        self.stamps.is_met(row)
    }

    /// Whether some of the rows is an assertion.
    pub(crate) fn has_look(&self, rows: &[StateID]) -> bool
        ensures { result ≡ list_any (λ q. is_look_row (row_at (meaning self.now.nfa.now).rows q)) rows.now }
    {
        self.asks && rows.iter().any(|id| self.is_look(*id))
    }

    fn is_look(&self, id: StateID) -> bool
        ensures { result ≡ is_look_row (row_at (meaning self.now.nfa.now).rows id) }
    {
        match self.thin.get(id.as_usize()) {
            Some(thin) => thin.is_look(),
            None => false,
        }
    }
}

/// Adds a row at the end. There must be room.
#[inline]
fn put(rows: &mut Vec<StateID>, row: StateID)
    requires { length rows.old.items < vec_capacity rows.old }
    ensures items { rows.new.items ≡ rows.old.items ++ row ∷ [] }
    ensures room { vec_capacity rows.old ≤ vec_capacity rows.new }
{
    match rows.push(row) {
        Ok(()) => {}
        Err(_) => {}
    }
}

/// The current row, or the one on top of the stack, which is removed.
#[inline]
fn hand_or_top(hand: Option<StateID>, waiting: &mut Vec<StateID>) -> Option<StateID>
    ensures order { in_turn result waiting.new.items ≡ in_turn hand waiting.old.items }
    ensures none { IfNone result (waiting.new.items ≡ []) }
    ensures len { length waiting.new.items ≤ length waiting.old.items }
    ensures room { vec_capacity waiting.old ≤ vec_capacity waiting.new }
{
    match hand {
        Some(row) => Some(row),
        None => waiting.pop(),
    }
}

/// Lists a row that ends the search. Otherwise returns the preferred row behind it and pushes the other on the stack.
fn enter(
    row: ThinRow,
    id: StateID,
    passing: &Passing,
    found: &mut Vec<StateID>,
    waiting: &mut Vec<StateID>,
) -> Option<StateID>
    requires listed { length found.old.items < vec_capacity found.old }
    requires stack { length waiting.old.items < vec_capacity waiting.old }
    ensures found { found.new.items ≡ found.old.items ++ own_by (passing_of passing.now) id (row_of_thin row) }
    ensures waiting { let behind = branches_by (passing_of passing.now) (row_of_thin row) in
        in_turn result waiting.new.items ≡ behind ++ reverse waiting.old.items }
    ensures found_room { vec_capacity found.old ≤ vec_capacity found.new }
    ensures waiting_room { vec_capacity waiting.old ≤ vec_capacity waiting.new }
    ensures found_len { length found.new.items ≤ length found.old.items + 1 }
    ensures waiting_len { length waiting.new.items ≤ length waiting.old.items + 1 }
    ensures bound { id < id_count }
{
    let _number = id.as_usize();
    match row {
        ThinRow::Bytes | ThinRow::Match(_) => put(found, id),
        ThinRow::Split(first, second) => {
            put(waiting, second);
            return Some(first);
        }
        ThinRow::Look(look, behind) => match *passing {
            Passing::Standing => put(found, id),
            Passing::Tested {
                last,
                next,
                direction,
            } => return holds(look, last, next, direction).then_some(behind),
        },
        ThinRow::Fail => {}
    }
    None
}
