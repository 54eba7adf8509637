//! Walks over long stretches of bytes that lead to ordinary rows, at four places at once.
//!
//! A step waits for the row that the step before it gives, so one walk leaves a processor idle most of the time. A
//! block has four parts, with a walk for each. The later walks begin a little before their parts, in the row in which
//! the block begins. Where a walk leaves its part in the row in which the next one has entered the next part, the
//! next one is how it would have gone on.

ghost use Rattle.std.specs.Prelude.{◌≡◌, ◌+◌, ◌-◌, ◌*◌, ◌<◌, ◌≤◌, length, IsFalse};
ghost use Rattle.rx_spec.specs.Ids.{row_of};
ghost use Rattle.rx_spec.specs.declared.Direction.TheVariants.{Forward};
ghost use Rattle.rx_search.specs.FourWalks.{AreIdsOf, AreLed, AreOrdinary, JoinsTo};
ghost use Rattle.rx_search.specs.Passing.{IsFarthest, Leads};
ghost use Rattle.rx_search.specs.Starts.{IsId};

use crate::Automaton;
use rx_base::StateID;

/// How many bytes a walk reads of a block.
const PART: usize = 1024;

/// How many bytes a block has.
const BLOCK: usize = 4 * PART;

/// How many bytes before its part a walk begins.
const LEAD: usize = 32;

/// How many bytes a walk reads at one place before it goes on at several, at first and after a block that wasn't
/// passed over.
pub(crate) const ALONE: usize = 2048;

/// The most that they become, where block after block isn't.
const MOST_ALONE: usize = 1 << 19;

/// How many bytes were passed over, and the row to which they led.
#[derive(Clone, Copy, Debug)]
pub struct Passed {
    /// The row's id.
    pub row: StateID,
    /// The number of bytes.
    pub count: usize,
}

/// The rows in which the four walks over a block stand.
#[derive(Clone, Copy, Debug)]
struct Rows {
    first: StateID,
    second: StateID,
    third: StateID,
    fourth: StateID,
}

/// Passes over bytes from `passed.row` up to the first one that leads to a special row, or to an end, and writes how
/// many and where they led.
///
/// It is for walks of a caller's own over long stretches, and reads them at several places at once: that pays off from
/// some 4,096 bytes on. It writes to memory and returns nothing: a row that comes back in a register would cost the
/// loop of the caller one instruction more in its chain of loads.
#[inline(never)]
pub fn pass_on<A: Automaton>(dfa: &A, passed: &mut Passed, haystack: &[u8], from: usize, end: usize)
    requires is_id { IsId (A.ids dfa.now) passed.old.row }
    requires begun { from ≤ end }
    requires within { end ≤ length haystack.now }
    ensures is_id { IsId (A.ids dfa.now) passed.new.row }
    ensures leads { Leads (A.table dfa.now) Forward haystack.now (row_of (A.ids dfa.now) passed.old.row) from
        (row_of (A.ids dfa.now) passed.new.row) passed.new.count }
    ensures within { passed.new.count ≤ end - from }
    ensures farthest { IsFarthest (A.table dfa.now) Forward haystack.now (row_of (A.ids dfa.now) passed.old.row) from
        passed.new.count (end - from) }
{
    *passed = pass_far(dfa, passed.row, haystack, from, end);
}

/// Passes over bytes that lead to ordinary rows, up to the first one that leads to another, or to an end.
#[inline(always)]
fn pass_far<A: Automaton>(dfa: &A, row: StateID, haystack: &[u8], from: usize, end: usize) -> Passed
    requires is_id { IsId (A.ids dfa.now) row }
    requires begun { from ≤ end }
    requires within { end ≤ length haystack.now }
    ensures is_id { IsId (A.ids dfa.now) result.row }
    ensures leads { Leads (A.table dfa.now) Forward haystack.now (row_of (A.ids dfa.now) row) from
        (row_of (A.ids dfa.now) result.row) result.count }
    ensures within { result.count ≤ end - from }
    ensures farthest { IsFarthest (A.table dfa.now) Forward haystack.now (row_of (A.ids dfa.now) row) from
        result.count (end - from) }
{
    let mut passed = Passed { row, count: 0 };
    let mut alone = ALONE;
    'turns: while passed.count < end - from {
        let block = pass_block_within(dfa, passed.row, haystack, from + passed.count, end);
        let at = passed.count + block.count;
        if block.count == BLOCK {
            passed = Passed {
                row: block.row,
                count: at,
            };
            alone = ALONE;
            continue;
        }
        let bytes = alone.min(end - from - at);
        let more = pass_alone(dfa, block.row, haystack, from + at, bytes);
        passed = Passed {
            row: more.row,
            count: at + more.count,
        };
        if more.count < bytes {
            return passed;
        }
        alone = MOST_ALONE.min(2 * alone);
    }
    passed
}

/// Passes over one block, or over a part of it, where one stands before the end.
#[inline(always)]
fn pass_block_within<A: Automaton>(
    dfa: &A,
    row: StateID,
    haystack: &[u8],
    from: usize,
    end: usize,
) -> Passed
    requires is_id { IsId (A.ids dfa.now) row }
    requires begun { from < end }
    requires within { end ≤ length haystack.now }
    ensures is_id { IsId (A.ids dfa.now) result.row }
    ensures leads { Leads (A.table dfa.now) Forward haystack.now (row_of (A.ids dfa.now) row) from
        (row_of (A.ids dfa.now) result.row) result.count }
    ensures within { result.count < end - from }
{
    if end - from > BLOCK {
        return pass_block(dfa, row, haystack, from);
    }
    Passed { row, count: 0 }
}

/// Passes over at most so many bytes at one place.
#[inline(always)]
fn pass_alone<A: Automaton>(
    dfa: &A,
    row: StateID,
    haystack: &[u8],
    from: usize,
    bytes: usize,
) -> Passed
    requires is_id { IsId (A.ids dfa.now) row }
    requires within { from + bytes ≤ length haystack.now }
    ensures is_id { IsId (A.ids dfa.now) result.row }
    ensures leads { Leads (A.table dfa.now) Forward haystack.now (row_of (A.ids dfa.now) row) from
        (row_of (A.ids dfa.now) result.row) result.count }
    ensures within { result.count ≤ bytes }
    ensures farthest { IsFarthest (A.table dfa.now) Forward haystack.now (row_of (A.ids dfa.now) row) from
        result.count bytes }
{
    let mut here = row;
    let mut count = 0;
    'bytes: while count < bytes {
        let next = dfa.next_state(here, haystack[from + count]);
        if dfa.is_special_state(next) {
            return Passed { row: here, count };
        }
        here = next;
        count += 1;
    }
    Passed { row: here, count }
}

/// Passes over one block, or over a part of it.
#[inline(always)]
fn pass_block<A: Automaton>(dfa: &A, row: StateID, haystack: &[u8], from: usize) -> Passed
    requires is_id { IsId (A.ids dfa.now) row }
    requires within { from + 4096 ≤ length haystack.now }
    ensures is_id { IsId (A.ids dfa.now) result.row }
    ensures leads { Leads (A.table dfa.now) Forward haystack.now (row_of (A.ids dfa.now) row) from
        (row_of (A.ids dfa.now) result.row) result.count }
    ensures within { result.count ≤ 4096 }
{
    let entries = Rows {
        first: row,
        second: lead(dfa, row, &haystack[from + PART - LEAD..from + PART]),
        third: lead(dfa, row, &haystack[from + 2 * PART - LEAD..from + 2 * PART]),
        fourth: lead(dfa, row, &haystack[from + 3 * PART - LEAD..from + 3 * PART]),
    };
    let mut rows = entries;
    let mut count = 0;
    'bytes: while count < PART {
        let next = step(dfa, &rows, haystack, from + count);
        if is_one_special(dfa, &next) {
            return Passed {
                row: rows.first,
                count,
            };
        }
        rows = next;
        count += 1;
    }
    join(&entries, &rows)
}

/// The row to which bytes lead from a row.
#[inline(always)]
fn lead<A: Automaton>(dfa: &A, row: StateID, bytes: &[u8]) -> StateID
    requires { IsId (A.ids dfa.now) row }
    ensures { IsId (A.ids dfa.now) result }
{
    let mut row = row;
    'bytes: for byte in bytes {
        row = dfa.next_state(row, *byte);
    }
    row
}

/// The rows after one byte more of each part. `at` is where that of the first part stands.
#[inline(always)]
fn step<A: Automaton>(dfa: &A, rows: &Rows, haystack: &[u8], at: usize) -> Rows
    requires ids { AreIdsOf (A.ids dfa.now) rows.now }
    requires within { at + 3072 < length haystack.now }
    ensures ids { AreIdsOf (A.ids dfa.now) result }
    ensures led { AreLed (A.table dfa.now) (A.ids dfa.now) haystack.now at rows.now result }
{
    Rows {
        first: dfa.next_state(rows.first, haystack[at]),
        second: dfa.next_state(rows.second, haystack[at + PART]),
        third: dfa.next_state(rows.third, haystack[at + 2 * PART]),
        fourth: dfa.next_state(rows.fourth, haystack[at + 3 * PART]),
    }
}

/// Whether one of the rows is special.
#[inline(always)]
fn is_one_special<A: Automaton>(dfa: &A, rows: &Rows) -> bool
    requires ids { AreIdsOf (A.ids dfa.now) rows.now }
    ensures { IsFalse result → AreOrdinary (A.table dfa.now) (A.ids dfa.now) rows.now }
{
    dfa.is_special_state(rows.first)
        || dfa.is_special_state(rows.second)
        || dfa.is_special_state(rows.third)
        || dfa.is_special_state(rows.fourth)
}

/// How far a walk over the whole block has come, where each walk read its part: from `entries` to `exits`. It has
/// come through a part where it left the one before in the row in which the part was entered.
#[inline(always)]
fn join(entries: &Rows, exits: &Rows) -> Passed
    ensures { JoinsTo entries.now exits.now result }
{
    if exits.first != entries.second {
        return Passed {
            row: exits.first,
            count: PART,
        };
    }
    if exits.second != entries.third {
        return Passed {
            row: exits.second,
            count: 2 * PART,
        };
    }
    if exits.third != entries.fourth {
        return Passed {
            row: exits.third,
            count: 3 * PART,
        };
    }
    Passed {
        row: exits.fourth,
        count: BLOCK,
    }
}
