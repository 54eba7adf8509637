//! The block into which a unit leads each row.

ghost use Rattle.std.specs.Prelude.{◌≡◌, ℕ, ◌+◌, ◌<◌, ◌≤◌, ◌^◌, length, slice_index, cond};
ghost use Rattle.rx_refine.specs.Moves.{Moves, AreMoves, sources};
ghost use Rattle.rx_refine.specs.Parts.{is_in};
ghost use Rattle.rx_refine.specs.Keys.{waiting_reads, AreNextKeys};

use crate::lists::Incoming;
use crate::numbers::clear;
use rx_spec::Steps;

/// Writes the block into which the unit leads each row to `keys`, or 0 if that block is below `taken`. Reads the lists
/// of the rows in the other blocks, in the order of the rows.
pub(crate) fn read_keys<L>(
    incoming: &Incoming<L>,
    blocks: &[u32],
    taken: usize,
    unit: usize,
    keys: &mut [u32],
    steps: &mut Steps<L>,
)
    requires moves { AreMoves incoming.now }
    requires unit { unit < incoming.now.units }
    requires blocks { length blocks.now ≡ incoming.now.rows }
    requires keys { length keys.old ≡ incoming.now.rows }
    requires room { steps.old + waiting_reads incoming.now unit blocks.now taken < 2 ^ 64 }
    ensures len { length keys.new ≡ length keys.old }
    ensures keys { AreNextKeys incoming.now unit blocks.now taken keys.new }
    ensures steps { steps.new ≤ steps.old + waiting_reads incoming.now unit blocks.now taken }
    ensures rising { steps.old ≤ steps.new }
{
    clear(keys);
    for row in 0..incoming.rows() {
        let block = blocks[row];
        if taken <= block as usize {
            set_keys(incoming, row, unit, block, keys, steps);
        }
    }
}

/// Gives a key to the rows that the unit leads to `row`.
fn set_keys<L>(
    incoming: &Incoming<L>,
    row: usize,
    unit: usize,
    key: u32,
    keys: &mut [u32],
    steps: &mut Steps<L>,
)
    requires moves { AreMoves incoming.now }
    requires row { row < incoming.now.rows }
    requires unit { unit < incoming.now.units }
    requires keys { length keys.old ≡ incoming.now.rows }
    requires room { steps.old + (1 + length (sources incoming.now row unit)) < 2 ^ 64 }
    ensures len { length keys.new ≡ length keys.old }
    ensures keys { (x : ℕ) → x < length keys.old
        → slice_index keys.new x ≡ cond (is_in (sources incoming.now row unit) x) key (slice_index keys.old x) }
    ensures steps { steps.new ≡ steps.old + (1 + length (sources incoming.now row unit)) }
{
    let count = incoming.count(row, unit, steps);
    for i in 0..count {
        keys[incoming.source(row, unit, i, steps)] = key;
    }
}
