//! Numbers for blocks, in the order of their first rows.

ghost use Rattle.std.specs.Prelude.{◌≡◌, ℕ, ◌<◌, ◌≤◌, ◌*◌, ◌^◌, All, IfOk, length, map};
ghost use Rattle.rx_spec.specs.Causes.{max_id};
ghost use Rattle.rx_minimize.specs.Blocks.{AreRenumbered};

use rx_base::StateID;
use std::alloc::{AllocError, Global};

/// Blocks of rows, numbered in the order of their first rows.
#[derive(Drop)]
pub(crate) struct Numbering {
    /// The number of each row's block.
    pub(crate) numbers: Vec<u32>,
    /// For each number, the first row of its block.
    pub(crate) firsts: Vec<u32>,
}

impl Numbering {
    /// Renumbers blocks in the order of their first rows. `blocks` has a number below the number of rows for each row.
    pub(crate) fn new(alloc: Global, blocks: &[u32]) -> Result<Numbering, AllocError>
        requires few { length blocks.now < 2 ^ 32 }
        requires below { All (λ block. block < length blocks.now) blocks.now }
        ensures { IfOk result (λ numbering. AreRenumbered blocks.now numbering.numbers.items numbering.firsts.items) }
    {
        let unnamed = blocks.len() as u32;
        let mut names = vec![in alloc; unnamed; blocks.len()]?;
        let mut numbers = Vec::with_capacity(alloc, blocks.len())?;
        let mut firsts = Vec::new(alloc);
        for (row, block) in blocks.iter().enumerate() {
            let block = *block as usize;
            if names[block] == unnamed {
                names[block] = firsts.len() as u32;
                firsts.push(row as u32)?;
            }
            numbers.push(names[block])?;
        }
        Ok(Numbering { numbers, firsts })
    }

    /// For each row, the id of the row with its block's number.
    pub(crate) fn ids(&self, alloc: Global, stride2: usize) -> Result<Vec<StateID>, AllocError>
        requires stride2 { stride2 ≤ 9 }
        requires ids { All (λ number. number * 2 ^ stride2 ≤ max_id) self.now.numbers.items }
        ensures { IfOk result (λ ids. ids.items ≡ map (λ number. number * 2 ^ stride2) self.now.numbers.items) }
    {
        let mut ids = Vec::with_capacity(alloc, self.numbers.len())?;
        for number in self.numbers.iter() {
            ids.push(StateID::must((*number as usize) << stride2))?;
        }
        Ok(ids)
    }
}
