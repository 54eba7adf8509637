//! Hopcroft's refinement.

ghost use Rattle.std.specs.Prelude.{◌≡◌, ℕ, ◌+◌, ◌<◌, ◌≤◌, ◌^◌, ◌++◌, length, slice_index, All, IfOk, OnOk};
ghost use Rattle.std.specs.List.{flat_map, sum_by};
ghost use Rattle.rx_refine.specs.Moves.{AreMoves, Moves, sources, read_limit};
ghost use Rattle.rx_refine.specs.Moves.{AreAlikeByNumber, AreToldByNumber, AreWithoutGaps};
ghost use Rattle.rx_refine.specs.Kept.{parts};
ghost use Rattle.rx_refine.specs.Labelled.{IsByLabel};
ghost use Rattle.rx_refine.specs.Parts.{IsPartition};
ghost use Rattle.rx_refine.specs.Keys.{waiting_reads, TakesAll};

use crate::keys::read_keys;
use crate::lists::Incoming;
use crate::partition::Partition;
use rx_spec::Steps;
use std::alloc::{AllocError, Global};

/// The number of each row's block. Two rows are in one block exactly if they behave alike for the labels `first`: every
/// word of units leads from both to rows with equal labels.
///
/// For each unit the blocks are processed in the order of their numbers. Processing a block for a unit splits each
/// block into the rows that the unit leads into the processed block and the others. The smaller part gets a new number,
/// so it is processed later. The larger part keeps its number, so it is processed later unless it was already. If many
/// rows are left for a unit, all their blocks are processed at once: each block is split by the blocks into which the
/// unit leads its rows. If few are left, one unit processes them all before the next unit does, because its lists are
/// in the cache then. The loop ends early when every block has one row.
pub fn refine<L>(
    alloc: Global,
    incoming: &Incoming<L>,
    first: &[u32],
    steps: &mut Steps<L>,
) -> Result<Vec<u32>, AllocError>
    requires labels_len { length first.now ≡ incoming.now.rows }
    requires labels { All (λ label. label < incoming.now.rows) first.now }
    requires room { steps.old + read_limit incoming.now < 2 ^ 64 }
    ensures len { IfOk result (λ blocks. length blocks.items ≡ incoming.now.rows) }
    ensures alike { IfOk result (λ blocks. AreAlikeByNumber incoming.now first.now blocks.items) }
    ensures told { IfOk result (λ blocks. AreToldByNumber incoming.now first.now blocks.items) }
    ensures numbers { IfOk result (λ blocks. All (λ block. block < incoming.now.rows) blocks.items) }
    ensures no_gaps { IfOk result (λ blocks. AreWithoutGaps blocks.items) }

    // Where memory runs out there were no more steps either.
    ensures steps { steps.new ≤ steps.old + read_limit incoming.now }
    ensures rising { steps.old ≤ steps.new }
{
    let units = incoming.units();
    let mut key_room = vec![in alloc; 0; incoming.rows()]?;
    let keys = key_room.as_mut_slice();
    let mut name_room = vec![in alloc; 0; incoming.rows() + 1]?;
    let names = name_room.as_mut_slice();
    let mut partition = by_label(alloc, first, names)?;
    let mut taken = none_taken(alloc, units)?;
    let mut touched = Vec::new(alloc);
    let mut hits = Vec::new(alloc);
    let mut seen = 0;
    while seen < partition.len() {
        seen = partition.len();
        for unit in 0..units {
            if partition.is_crowded(taken[unit]) {
                taken[unit] = take_all(
                    incoming,
                    unit,
                    taken[unit],
                    &mut partition,
                    keys,
                    names,
                    steps,
                )?;
                if partition.is_crowded(taken[unit]) {
                    continue;
                }
            }
            while taken[unit] < partition.len() {
                if partition.is_discrete() {
                    return Ok(partition.into_blocks());
                }
                let block = taken[unit];
                gather(incoming, partition.members(block), unit, &mut hits, steps)?;
                partition.split(&hits, &mut touched)?;
                taken[unit] = block + 1;
            }
        }
    }
    Ok(partition.into_blocks())
}

/// Splits each block by the blocks from `taken` on into which the unit leads its rows. Returns the number of blocks
/// before the split: the unit has processed these.
fn take_all<L>(
    incoming: &Incoming<L>,
    unit: usize,
    taken: usize,
    partition: &mut Partition,
    keys: &mut [u32],
    names: &mut [u32],
    steps: &mut Steps<L>,
) -> Result<usize, AllocError>
    requires moves { AreMoves incoming.now }
    requires unit { unit < incoming.now.units }
    requires partition { IsPartition (parts partition.old) }
    requires clear { (block : ℕ) → slice_index partition.old.marks.items block ≡ 0 }
    requires rows { length partition.old.rows.items ≡ incoming.now.rows }
    requires keys { length keys.old ≡ incoming.now.rows }
    requires names { length names.old ≡ incoming.now.rows + 1 }
    requires room { steps.old + waiting_reads incoming.now unit partition.old.blocks.items taken < 2 ^ 64 }
    ensures end { IfOk result (λ end. end ≡ length partition.old.sizes.items) }
    ensures takes { IfOk result (λ _. TakesAll incoming.now unit (parts partition.old) taken (parts partition.new)) }
    ensures steps { steps.new ≤ steps.old + waiting_reads incoming.now unit partition.old.blocks.items taken }
    ensures rising { steps.old ≤ steps.new }
{
    let end = partition.len();
    read_keys(incoming, partition.blocks(), taken, unit, keys, steps);
    partition.split_by_keys(keys, names)?;
    Ok(end)
}

/// For each unit, the number of blocks that it has processed: zero.
fn none_taken(alloc: Global, units: usize) -> Result<Vec<usize>, AllocError>
    ensures len { IfOk result (λ taken. length taken.items ≡ units) }
    ensures none { IfOk result (λ taken. (unit : ℕ) → unit < units → slice_index taken.items unit ≡ 0) }
{
    vec![in alloc; 0; units]
}

/// The partition into rows with equal labels. `names` is room to work in.
fn by_label(alloc: Global, first: &[u32], names: &mut [u32]) -> Result<Partition, AllocError>
    requires few { length first.now ≤ 2 ^ 31 }
    requires small { All (λ label. label < length first.now) first.now }
    requires names { length names.old ≡ length first.now + 1 }
    ensures { IfOk result (λ partition. IsByLabel first.now (parts partition)) }
{
    let mut partition = Partition::new(alloc, first.len())?;
    partition.split_by_keys(first, names)?;
    Ok(partition)
}

/// Puts into `hits` the rows from which the unit leads to one of `members`.
fn gather<L>(
    incoming: &Incoming<L>,
    members: &[u32],
    unit: usize,
    hits: &mut Vec<u32>,
    steps: &mut Steps<L>,
) -> Result<(), AllocError>
    requires moves { AreMoves incoming.now }
    requires unit { unit < incoming.now.units }
    requires members { All (λ row. row < incoming.now.rows) members.now }
    requires room { steps.old + sum_by (λ row. 1 + length (sources incoming.now row unit)) members.now < 2 ^ 64 }
    ensures hits { OnOk result (hits.new.items ≡ flat_map (λ row. sources incoming.now row unit) members.now) }
    ensures steps { steps.new ≤ steps.old + sum_by (λ row. 1 + length (sources incoming.now row unit)) members.now }
    ensures rising { steps.old ≤ steps.new }
{
    hits.clear();
    for member in members {
        add_sources(incoming, *member as usize, unit, hits, steps)?;
    }
    Ok(())
}

/// Adds the rows from which the unit leads to `row`.
fn add_sources<L>(
    incoming: &Incoming<L>,
    row: usize,
    unit: usize,
    hits: &mut Vec<u32>,
    steps: &mut Steps<L>,
) -> Result<(), AllocError>
    requires moves { AreMoves incoming.now }
    requires row { row < incoming.now.rows }
    requires unit { unit < incoming.now.units }
    requires room { steps.old + (1 + length (sources incoming.now row unit)) < 2 ^ 64 }
    ensures hits { OnOk result (hits.new.items ≡ hits.old.items ++ sources incoming.now row unit) }
    ensures steps { steps.new ≤ steps.old + (1 + length (sources incoming.now row unit)) }
    ensures rising { steps.old ≤ steps.new }
{
    let count = incoming.count(row, unit, steps);
    for i in 0..count {
        let source = incoming.source(row, unit, i, steps);
        hits.push(source as u32)?;
    }
    Ok(())
}
