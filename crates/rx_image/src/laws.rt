//! A pair image is read as the pair that was written.
//!
//! The function has an empty body, and its clause is the law.

ghost use Rattle.std.specs.Prelude.{◌≡◌, ℕ, ◌++◌, List, Ok, length};
ghost use Rattle.rx_wire.specs.declared.order.Order.{Order};
ghost use Rattle.rx_image.specs.Pairs.{AreWhole, HaveSamePatterns, Pair, in_order, reads, text};

/// An image of a pair whose tables can be read is read as that pair with the image's length, in either byte order and
/// whatever bytes follow. Every pair that [`read_pair`](crate::read_pair) returns is such a pair.
pub fn pairs_are_read_again()
    ensures { (order : Order) (p : Pair) → AreWhole p → HaveSamePatterns p → (rest : List ℕ)
        → reads (text order p ++ rest) ≡ Ok (in_order order p, length (text order p)) }
{}
