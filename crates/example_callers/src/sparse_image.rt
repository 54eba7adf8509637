//! The caller of `docs/calling/rx_sparse_image.md`.

ghost use Rattle.std.specs.Prelude.{◌≡◌, IfOk};
ghost use Rattle.rx_wire.specs.declared.order.Order.TheVariants.{Big};
ghost use Rattle.rx_sparse_image.specs.Images.{text};

use rx_base::Input;
use rx_image::{SparseRead, SparseWrite};
use rx_search::Automaton;
use rx_sparse::DFA;
use rx_wire::DeserializeError;
use std::alloc::{AllocError, Global};

/// The image of a table, for a big-endian machine.
pub fn save(alloc: Global, table: &DFA<Vec<u8>>) -> Result<Vec<u8>, AllocError>
    ensures { IfOk result (λ image. image.items ≡ text Big table.now.layout) }
{
    table.to_bytes_big_endian(alloc)
}

/// Whether a text has a match, by an image that is searched in place. A search that fails counts as a match.
pub fn is_suspicious(alloc: Global, image: &[u8], text: &[u8]) -> Result<bool, DeserializeError> {
    match DFA::<&[u8]>::from_bytes(alloc, image) {
        Ok((table, _len)) => match table.try_search_fwd(&Input::new(text).earliest(true)) {
            Ok(end) => Ok(end.is_some()),
            Err(_) => Ok(true),
        },
        Err(error) => Err(error),
    }
}
