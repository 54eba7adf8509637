//! Examples of the definitions. Their bodies are empty, and their contracts are the examples.

ghost use Rattle.rx_order.specs.Examples.{FiveByKind, ThreeRearranged, ThreeRenamed};

/// Three rows that each move on by one place, and the renamed table.
pub fn three_rows()
    ensures rearranged { ThreeRearranged }
    ensures renamed { ThreeRenamed }
{}

/// Five rows in the order of their kinds, and where each kind ends.
pub fn five_rows()
    ensures { FiveByKind }
{}
