//! Units that two tables don't tell apart.

ghost use Rattle.std.specs.Prelude.{IfOk, IsTrue};
ghost use Rattle.rx_search.specs.Classes.{LeadsAsPrevious};
ghost use Rattle.rx_equal.specs.Classes.{Represent};

use crate::UnitList;
use crate::places::unit_at;
use rx_base::Unit;
use rx_search::Automaton;
use std::alloc::{AllocError, Global};

/// The first byte of each class that both tables keep, and the end of input. Every unit leads as one of these.
pub(crate) fn representatives<A: Automaton, B: Automaton>(
    alloc: Global,
    a: &A,
    b: &B,
) -> Result<UnitList, AllocError>
    ensures { IfOk result (Represent (A.table a.now) (B.table b.now)) }
{
    let mut units = UnitList::new(alloc);
    for n in 0..256 {
        if !lead_as_previous(a, b, n as u8) {
            units.push(unit_at(n))?;
        }
    }
    units.push(Unit::Eoi)?;
    Ok(units)
}

/// Whether a byte leads from each row of both tables where the byte before it leads.
fn lead_as_previous<A: Automaton, B: Automaton>(a: &A, b: &B, byte: u8) -> bool
    ensures first { IsTrue result → LeadsAsPrevious (A.table a.now) byte }
    ensures second { IsTrue result → LeadsAsPrevious (B.table b.now) byte }
{
    a.leads_as_previous(byte) && b.leads_as_previous(byte)
}
