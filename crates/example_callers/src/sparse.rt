//! The caller of `docs/calling/rx_sparse.md`.

ghost use Rattle.std.specs.Prelude.{◌≤◌, IfOk, IfSome, length};
ghost use Rattle.rx_spec.specs.Tables.{AreSame};
ghost use Rattle.rx_dense.specs.Facts.{IsSoundLayout as IsSoundDense};
ghost use Rattle.rx_dense.specs.Layouts.{table_of as dense_table};
ghost use Rattle.rx_sparse.specs.Facts.{IsSoundLayout};
ghost use Rattle.rx_sparse.specs.Layouts.{table_of};
ghost use Rattle.rx_sparse.specs.Sparse.{AreSpecialRows};

use rx_base::{Input, MatchError};
use rx_build::BuildError;
use rx_dense::OwnedDFA;
use rx_search::Automaton;
use rx_sparse::{DFA, ToSparse};
use std::alloc::Global;

/// The sparse form of a table. It reports the same.
pub fn sparse_form(alloc: Global, table: &OwnedDFA) -> Result<DFA<Vec<u8>>, BuildError>
    requires sound { IsSoundDense table.now }
    requires special { AreSpecialRows table.now }
    ensures sound { IfOk result (λ sparse. IsSoundLayout sparse.layout) }
    ensures same { IfOk result (λ sparse. AreSame (dense_table table.now) (table_of sparse.layout)) }
{
    table.to_sparse(alloc)
}

/// Where the first match of a text ends.
pub fn first_end(table: &DFA<&[u8]>, text: &[u8]) -> Result<Option<usize>, MatchError>
    requires { IsSoundLayout table.now.layout }
    ensures { IfOk result (λ end. IfSome end (λ at. at ≤ length text.now)) }
{
    match table.try_search_fwd(&Input::new(text)) {
        Ok(Some(end)) => Ok(Some(end.offset())),
        Ok(None) => Ok(None),
        Err(error) => Err(error),
    }
}
