//! The caller of `docs/calling/rx_dense_image.md`.

ghost use Rattle.std.specs.Prelude.{◌≡◌, IfOk};
ghost use Rattle.rx_wire.specs.declared.order.Order.TheVariants.{Little};
ghost use Rattle.rx_dense.specs.Facts.{IsSoundLayout};
ghost use Rattle.rx_dense_image.specs.Images.{text};

use rx_dense::{DFA, OwnedDFA};
use rx_image::{DenseRead, DenseWrite};
use rx_wire::DeserializeError;
use std::alloc::{AllocError, Global};

/// The image of a table.
pub fn save(alloc: Global, table: &OwnedDFA) -> Result<Vec<u8>, AllocError>
    ensures { IfOk result (λ image. image.items ≡ text Little table.now) }
{
    let (image, _padding) = table.to_bytes_little_endian(alloc)?;
    Ok(image)
}

/// The table of an image that anybody may have written.
pub fn load(alloc: Global, image: &[u8]) -> Result<OwnedDFA, DeserializeError>
    ensures { IfOk result IsSoundLayout }
{
    let (table, _len) = DFA::<Vec<u32>>::from_bytes(alloc, image)?;
    Ok(table)
}
