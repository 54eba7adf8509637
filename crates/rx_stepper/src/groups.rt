//! Groups of columns that the assertions treat alike.

ghost use Rattle.std.specs.Prelude.{◌≡◌, ℕ, ◌<◌, All, map, length, slice_index, slice_index_or, false, IfOk};
ghost use Rattle.rx_base.specs.Unit.{unit_number};
ghost use Rattle.rx_expr.specs.Nfa.{meaning};
ghost use Rattle.rx_stepper.specs.Columns.{AreGroups, AreUsed, takes};

use rx_base::{Facts, Unit};
use rx_expr::thompson::NFA;
use std::alloc::{AllocError, Global};

/// The greatest number of groups: one for each set of facts.
pub(crate) const GROUPS: usize = 32;

/// The columns by what assertions ask of their units. No assertion distinguishes two columns of a group. A group is the
/// number of its facts.
#[derive(Drop)]
pub(crate) struct Groups {
    /// The group of each column.
    of: Vec<u8>,
    /// For each group, whether it has a column.
    used: Vec<bool>,
    ghost below: { All (λ group. group < 32) of.items },
    ghost used_len: { length used.items ≡ 32 },
    ghost are_used: { AreUsed of.items used.items },
}

impl Groups {
    /// The groups of the columns with these units.
    pub(crate) fn new(alloc: Global, nfa: &NFA, units: &[Unit]) -> Result<Groups, AllocError>
        ensures { IfOk result (λ g. AreGroups (meaning nfa.now) (map unit_number units.now) g.of.items) }
    {
        let asked = nfa.asked_facts();
        let mut of = Vec::with_capacity(alloc, units.len())?;
        let mut used = vec![in alloc; false; GROUPS]?;
        for unit in units {
            let known = Facts::of_unit(nfa.line_terminator(), *unit);
            let group = asked.intersect(known).to_bits();
            of.push(group)?;
            used[group as usize] = true;
        }
        Ok(Groups { of, used })
    }

    /// The group of a column.
    #[inline]
    pub(crate) fn of(&self, column: usize) -> u8
        requires { column < length self.now.of.items }
        ensures value { result ≡ slice_index self.now.of.items column }
        ensures bound { result < 32 }
    {
        self.of[column]
    }

    /// Whether a group has a column.
    pub(crate) fn has(&self, group: u8) -> bool
        requires { group < 32 }
        ensures { result ≡ slice_index_or self.now.used.items group false }
    {
        self.used[group as usize]
    }

    /// Whether a column is of a group, or no group is given.
    #[inline]
    pub(crate) fn takes(&self, only: Option<u8>, column: usize) -> bool
        requires { column < length self.now.of.items }
        ensures { result ≡ takes only self.now.of.items column }
    {
        match only {
            None => true,
            Some(group) => self.of[column] == group,
        }
    }
}
