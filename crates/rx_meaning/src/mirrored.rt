//! Mirrored search: what is read in reverse is what was read forward.

ghost use Rattle.rx_meaning.specs.Mirrored.{MirroredSearch, StartOfEnd};

/// An anchored search in reverse, of the kind `All`, tells the least start in the span of a match that
/// ends where the span ends, and there the lowest pattern.
pub fn mirrored_search()
    ensures { MirroredSearch }
{}

/// From an end that a forward search told, the search in reverse is neither refused nor meets a quit
/// byte: it tells the least start of a match that ends there, and the lowest pattern from that start.
pub fn start_of_end()
    ensures { StartOfEnd }
{}
