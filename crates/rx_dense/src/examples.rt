//! Examples: rows that are renamed, cut off or kept, of a table of three.
//!
//! The function has an empty body, and its clauses are the examples. They are spelled out in `specs/Examples.antt`.

ghost use Rattle.rx_dense.specs.Examples.{KeepsTwoRows, CutsLastRow, RenamesAllRows, RenamesOneRow};

/// The second and the third row of three change their names, or one of them goes.
pub fn three_rows()
    ensures all { RenamesAllRows }
    ensures one { RenamesOneRow }
    ensures first { CutsLastRow }
    ensures kept { KeepsTwoRows }
{}
