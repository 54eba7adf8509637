//! Joined search: an end found forward, and its start found in reverse.

ghost use Rattle.rx_meaning.specs.Joined.{JoinedEnd, JoinedSearch, NeverMismatched};

/// The two half searches, joined, answer what is found: the leftmost match, there the lowest pattern,
/// and its preferred end. They answer an error exactly where the forward half search is refused or
/// meets a quit byte, and never that the two disagree.
pub fn joined_search()
    ensures { JoinedSearch }
{}

/// Where the forward half search tells an end, the joined search answers a match of that pattern that
/// lies in the span and ends there. The end may be the preferred one, or the first that is met.
pub fn joined_end()
    ensures { JoinedEnd }
{}

/// The search in reverse never gives none or another pattern, whichever end the forward search tells.
pub fn never_mismatched()
    ensures { NeverMismatched }
{}
