//! The blocks of rows that behave alike.

ghost use Rattle.std.specs.Prelude.{◌≡◌, ℕ, ◌<◌, All, IfOk, length};
ghost use Rattle.rx_spec.specs.Tables.{IsSound};
ghost use Rattle.rx_dense.specs.Layouts.{AreRows, AreStarts, table_of};
ghost use Rattle.rx_minimize.specs.Blocks.{AreBlocks};

use crate::labels::labels;
use rx_dense::OwnedDFA;
use rx_refine::{Incoming, Steps, refine};
use rx_spec::Tally;
use std::alloc::{AllocError, Global};

/// The number of each row's block. Two rows have one number exactly if they behave alike.
pub(crate) fn blocks(alloc: Global, dfa: &OwnedDFA) -> Result<Vec<u32>, AllocError>
    requires { IsSound (table_of dfa.now) }
    ensures blocks { IfOk result (λ blocks. AreBlocks (table_of dfa.now) blocks.items) }
    ensures below { IfOk result (λ blocks. All (λ block. block < length blocks.items) blocks.items) }
    ensures rows { IfOk result (λ _. AreRows dfa.now) }
    ensures starts { IfOk result (λ _. AreStarts dfa.now) }
{
    let labels = labels(alloc, dfa)?;
    let incoming = Incoming::from_ids(
        alloc,
        dfa.state_len(),
        dfa.alphabet_len(),
        dfa.stride2(),
        dfa.words(),
    )?;
    let mut steps = Steps::new(Tally);
    refine(alloc, &incoming, &labels, &mut steps)
}
