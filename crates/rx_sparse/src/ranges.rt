//! Ranges of classes that lead to one state.

ghost use Rattle.std.specs.Prelude.{◌≡◌, ◌-◌, IfOk, length, slice_index};
ghost use Rattle.rx_sparse.specs.Sparse.{ranges_of};
ghost use Rattle.rx_sparse.specs.Reading.{class_of};

use rx_base::Unit;
use rx_dense::State;
use std::alloc::AllocError;

/// A range of classes and the id of the state to which they lead.
#[derive(Clone, Copy, Debug)]
pub struct ClassRange {
    /// The first class.
    pub first: u8,
    /// The last class.
    pub last: u8,
    /// The id of the state to which they lead.
    pub next: u32,
}

/// The class of a unit that stands for a class. End of input has none; the result for it is 0.
fn class_of(unit: Unit) -> u8
    ensures { result ≡ class_of unit }
{
    match unit {
        Unit::Byte(class) => class,
        Unit::Eoi => 0,
    }
}

/// Replaces `ranges` by the maximal ranges of a dense state that don't lead to dead. Returns where end of input leads.
pub(crate) fn read_ranges(row: &State<'_>, ranges: &mut Vec<ClassRange>) -> Result<u32, AllocError>
    ensures ranges { IfOk result (λ _. ranges.new.items ≡ ranges_of row.now.next_ids) }
    ensures eoi { IfOk result (λ eoi. eoi ≡ slice_index row.now.next_ids (length row.now.next_ids - 1)) }
{
    ranges.clear();
    let mut eoi = 0;
    for (first, last, next) in row.sparse_transitions() {
        match first {
            Unit::Byte(first) => {
                ranges.push(ClassRange {
                    first,
                    last: class_of(last),
                    next: next.as_u32(),
                })?;
            }
            Unit::Eoi => eoi = next.as_u32(),
        }
    }
    Ok(eoi)
}
