//! The columns of a table, by the units that stand for them.

ghost use Rattle.std.specs.Prelude.{◌≡◌, map, length, IfOk};
ghost use Rattle.rx_base.specs.Unit.{unit_number};
ghost use Rattle.rx_expr.specs.Nfa.{meaning};
ghost use Rattle.rx_stepper.specs.Columns.{AreGroups, Reads};
ghost use Rattle.rx_stepper.specs.Units.{units_of};

use crate::groups::Groups;
use crate::reading::Reading;
use rx_base::{ByteClasses, Unit};
use rx_expr::thompson::NFA;
use std::alloc::{AllocError, Global};

/// What the rows and assertions of an NFA make of the columns of a table.
#[derive(Drop)]
pub(crate) struct Columns {
    pub(crate) reading: Reading,
    pub(crate) groups: Groups,
}

impl Columns {
    ghost use Rattle.rx_stepper.specs.Units.{units_of};

    /// The columns of an NFA's table: one for each class and one for the end of input.
    pub(crate) fn new(
        alloc: Global,
        nfa: &NFA,
        classes: &ByteClasses,
    ) -> Result<Columns, AllocError>
        ensures count { IfOk result (λ c. c.reading.count ≡ length (units_of classes.now)) }
        ensures reads { IfOk result (λ c.
            Reads (meaning nfa.now).rows (units_of classes.now) c.reading.columns.items c.reading.spans.items) }
        ensures groups { IfOk result (λ c. AreGroups (meaning nfa.now) (units_of classes.now) c.groups.of.items) }
    {
        let units = units_of(alloc, classes)?;
        Ok(Columns {
            reading: Reading::new(alloc, nfa, &units)?,
            groups: Groups::new(alloc, nfa, &units)?,
        })
    }
}

/// The units that stand for the columns: the least byte of each class, and the end of input.
fn units_of(alloc: Global, classes: &ByteClasses) -> Result<Vec<Unit>, AllocError>
    ensures { IfOk result (λ v. map unit_number v.items ≡ units_of classes.now) }
{
    let mut units = Vec::with_capacity(alloc, classes.alphabet_len())?;
    for unit in classes.representatives() {
        units.push(unit)?;
    }
    Ok(units)
}
