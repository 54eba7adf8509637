//! Merging the states that behave alike.

ghost use Rattle.std.specs.Prelude.{◌≡◌, IfOk, OnErr, OnOk};
ghost use Rattle.rx_order.specs.RowOrder.{IsInOrder, IsPlain};
ghost use Rattle.rx_minimize.specs.Minimized.{IsMinimized};
ghost use Rattle.rx_minimize.specs.Partitioned.{IsPartitioned};

use crate::blocks::blocks;
use crate::kinds::ends;
use crate::numbering::Numbering;
use rx_dense::OwnedDFA;
use rx_order::{patterns_of_rows, special};
use std::alloc::{AllocError, Global};

/// Merges the states of a table that behave alike. If memory runs out, the table is unchanged.
pub fn minimize(alloc: Global, dfa: &mut OwnedDFA) -> Result<(), AllocError>
    requires in_order { IsInOrder dfa.old }
    requires plain { IsPlain dfa.old }
    ensures ok { OnOk result (IsMinimized dfa.old dfa.new) }
    ensures err { OnErr result (dfa.new ≡ dfa.old) }
{
    let blocks = blocks(alloc, dfa)?;
    join_blocks(alloc, dfa, &blocks)
}

/// Keeps the first row of each block. `blocks` has the block of each row. If memory runs out, the table is unchanged.
fn join_blocks(alloc: Global, dfa: &mut OwnedDFA, blocks: &[u32]) -> Result<(), AllocError>
    requires { IsPartitioned dfa.old blocks.now }
    ensures ok { OnOk result (IsMinimized dfa.old dfa.new) }
    ensures err { OnErr result (dfa.new ≡ dfa.old) }
{
    let numbering = Numbering::new(alloc, blocks)?;
    let ends = ends(alloc, dfa, &numbering.firsts)?;
    let patterns = patterns_of_rows(alloc, dfa, &numbering.firsts, &ends)?;
    let ids = numbering.ids(alloc, dfa.stride2())?;
    let special = special(&ends, dfa.stride2(), dfa.special().starts());
    // The lists that are left aren't longer than those that there were.
    match dfa.set_pattern_map(&patterns) {
        Ok(()) => {}
        Err(_) => return Err(AllocError),
    }
    dfa.keep_states(&numbering.firsts, &ids);
    dfa.set_special(special);
    Ok(())
}

/// A table to minimize, with the blocks of its states.
#[derive(Drop)]
pub struct Minimizer<'a, B = Vec<u32>> {
    dfa: &'a mut OwnedDFA,
    /// The number of each row's block.
    blocks: B,
}

impl<'a> Minimizer<'a> {
    /// Finds the states of a table that behave alike.
    pub fn new(alloc: Global, dfa: &'a mut OwnedDFA) -> Result<Minimizer<'a>, AllocError>
        requires in_order { IsInOrder dfa.old }
        requires plain { IsPlain dfa.old }
        ensures lent { IfOk result (λ minimizer. minimizer.dfa.ghost_name ≡ dfa.entry.ghost_name) }
        ensures table { IfOk result (λ minimizer. minimizer.dfa.now ≡ dfa.old) }
        ensures blocks { IfOk result (λ minimizer. IsPartitioned minimizer.dfa.now minimizer.blocks.items) }
    {
        let blocks = blocks(alloc, dfa)?;
        Ok(Minimizer { dfa, blocks })
    }

    /// Merges the states that behave alike. If memory runs out, the table is unchanged.
    pub fn run(self) -> Result<(), AllocError>
        requires { IsPartitioned self.dfa.now self.blocks.items }
        ensures ok { OnOk result (IsMinimized self.entry.dfa.now self.exit.0.now) }
        ensures err { OnErr result (self.exit.0.now ≡ self.entry.dfa.now) }
    {
        let Minimizer { dfa, blocks } = self;
        join_blocks(*blocks.allocator(), dfa, &blocks)
    }
}
