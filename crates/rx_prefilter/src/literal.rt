//! The literal with which each match begins.

ghost use Rattle.std.specs.Prelude.{◌≡◌, ◌+◌, ◌<◌, ◌≤◌, ℕ, length, slice_index, All, IfOk, IfSome, IsTrue};
ghost use Rattle.rx_spec.specs.Ids.{row_of};
ghost use Rattle.rx_spec.specs.Machines.{Label};
ghost use Rattle.rx_search.specs.Starts.{IsId};
ghost use Rattle.rx_prefilter.specs.Literals.{EndsWith, IsLiteral, IsLongest, LeadsOn, AreRows, rows_at};

use rx_base::StateID;
use rx_search::Automaton;
use std::alloc::{AllocError, Global};

/// The most bytes of a literal.
const MOST: usize = 32;

/// A literal, and the rows in which a walk stands that has read its first bytes: none of them, one, and so on to all.
#[derive(Drop)]
pub(crate) struct Literal {
    pub(crate) bytes: Vec<u8>,
    pub(crate) rows: Vec<StateID>,
}

/// A byte with the row to which it leads.
#[derive(Clone, Copy, Debug)]
struct Way {
    byte: u8,
    to: StateID,
}

/// The literal with which each match of a search from this row begins. `None` if there is none of two bytes or more.
pub(crate) fn literal_from<A: Automaton>(
    alloc: Global,
    dfa: &A,
    start: StateID,
) -> Result<Option<Literal>, AllocError>
    requires sound { A.IsSound dfa.now }
    requires is_id { IsId (A.ids dfa.now) start }
    ensures { IfOk result (λ found. IfSome found (λ literal. (slice_index literal.rows.items 0 ≡ start)
        × AreRows (A.ids dfa.now) literal
        × IsLiteral (A.table dfa.now) literal.bytes.items (rows_at (A.ids dfa.now) literal.rows.items))) }
{
    let literal = only_way(alloc, dfa, start)?;
    if is_literal(dfa, &literal.bytes, &literal.rows) {
        return Ok(Some(literal));
    }
    Ok(None)
}

/// The bytes on the way from a row, as long as only one byte leads to a new row.
fn only_way<A: Automaton>(alloc: Global, dfa: &A, start: StateID) -> Result<Literal, AllocError>
    requires { IsId (A.ids dfa.now) start }
    ensures start { IfOk result (λ literal. slice_index literal.rows.items 0 ≡ start) }
    ensures rows { IfOk result (AreRows (A.ids dfa.now)) }
{
    let mut bytes = Vec::with_capacity(alloc, MOST)?;
    let mut rows = Vec::with_capacity(alloc, MOST + 1)?;
    rows.push(start)?;
    let mut row = start;
    for _ in 0..MOST {
        let Some(way) = way_on(dfa, &rows, row) else {
            break;
        };
        bytes.push(way.byte)?;
        rows.push(way.to)?;
        row = way.to;
    }
    Ok(Literal { bytes, rows })
}

/// The only byte that leads from a row to none of these rows, and where it leads. `None` if no byte does, or several.
fn way_on<A: Automaton>(dfa: &A, rows: &[StateID], row: StateID) -> Option<Way>
    requires { IsId (A.ids dfa.now) row }
    ensures { IfSome result (λ way. IsId (A.ids dfa.now) way.to) }
{
    let mut way = None;
    for byte in 0..256u16 {
        let to = dfa.next_state(row, byte as u8);
        if !rows.contains(&to) {
            if way.is_some() {
                return None;
            }
            way = Some(Way {
                byte: byte as u8,
                to,
            });
        }
    }
    way
}

/// Whether a search may look for a literal, by the rows that stand for its first bytes.
fn is_literal<A: Automaton>(dfa: &A, literal: &[u8], rows: &[StateID]) -> bool
    requires sound { A.IsSound dfa.now }
    requires count { length rows.now ≡ length literal.now + 1 }
    requires ids { All (IsId (A.ids dfa.now)) rows.now }
    ensures { IsTrue result
        → IsLiteral (A.table dfa.now) literal.now (rows_at (A.ids dfa.now) rows.now) }
{
    let len = literal.len();
    if len < 2 || dfa.is_special_state(rows[len - 1]) || !tells_nothing(dfa, rows[len]) {
        return false;
    }
    for k in 0..len {
        let row = rows[k];
        if !tells_nothing(dfa, row) || dfa.is_dead_state(row) {
            return false;
        }
        if !tells_nothing(dfa, dfa.next_eoi_state(row)) || !leads_on(dfa, literal, rows, k) {
            return false;
        }
    }
    true
}

/// Whether a row is neither a match row nor the quit row.
pub(crate) fn tells_nothing<A: Automaton>(dfa: &A, id: StateID) -> bool
    requires sound { A.IsSound dfa.now }
    requires is_id { IsId (A.ids dfa.now) id }
    ensures { IsTrue result
        → (A.table dfa.now).machine.label (row_of (A.ids dfa.now) id) ≡ Label.Plain }
{
    !dfa.is_match_state(id) && !dfa.is_quit_state(id)
}

/// Whether each byte leads from row `k` to the row of as many of the literal's first bytes as were read last.
fn leads_on<A: Automaton>(dfa: &A, literal: &[u8], rows: &[StateID], k: usize) -> bool
    requires count { length rows.now ≡ length literal.now + 1 }
    requires ids { All (IsId (A.ids dfa.now)) rows.now }
    requires within { k < length literal.now }
    ensures { IsTrue result → (byte : ℕ) → byte < 256
        → LeadsOn (A.table dfa.now) literal.now (rows_at (A.ids dfa.now) rows.now) k byte }
{
    for byte in 0..256u16 {
        let len = longest(literal, k, byte as u8);
        if dfa.next_state(rows[k], byte as u8) != rows[len] {
            return false;
        }
    }
    true
}

/// How many of a literal's first bytes the last bytes are, of its first `k` bytes and one more: the most that are.
fn longest(literal: &[u8], k: usize, byte: u8) -> usize
    requires { k < length literal.now }
    ensures { IsLongest literal.now k byte result }
{
    let mut len = k + 1;
    'lens: while len > 0 && !ends_with(literal, k, byte, len) {
        len -= 1;
    }
    len
}

/// Whether a literal's first `k` bytes and one more end with its first `len` bytes.
fn ends_with(literal: &[u8], k: usize, byte: u8, len: usize) -> bool
    requires some { 0 < len }
    requires few { len ≤ k + 1 }
    requires within { k < length literal.now }
    ensures exactly { IsTrue result → EndsWith literal.now k byte len }
    ensures no { EndsWith literal.now k byte len → IsTrue result }
{
    literal[len - 1] == byte && literal[k + 1 - len..k] == literal[..len - 1]
}
