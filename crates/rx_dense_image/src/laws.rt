//! An image is read as the table that was written.
//!
//! Each function has an empty body, and its clauses are the laws.

ghost use Rattle.std.specs.Prelude.{◌≡◌, ℕ, ◌++◌, List, Ok, length};
ghost use Rattle.rx_wire.specs.declared.order.Order.{Order};
ghost use Rattle.rx_dense.specs.Layouts.{IsShaped, Layout};
ghost use Rattle.rx_dense.specs.Facts.{IsSoundLayout};
ghost use Rattle.rx_dense_image.specs.Images.{IsWhole, reads, text};

/// An image of a layout that can be read (`IsWhole`) is read as that layout with the image's length, in either byte
/// order and whatever bytes follow. Every table that `DenseRead::from_bytes` of `rx_image` returns has
/// such a layout.
pub fn images_are_read_again()
    ensures { (order : Order) (l : Layout) → IsWhole l → (rest : List ℕ)
        → reads (text order l ++ rest) ≡ Ok (l, length (text order l)) }
{}

/// A layout that can be read has the form of a dense table, and is sound.
pub fn what_can_be_read_is_sound()
    ensures shaped { (l : Layout) → IsWhole l → IsShaped l }
    ensures sound { (l : Layout) → IsWhole l → IsSoundLayout l }
{}
