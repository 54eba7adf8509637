//! The law of tables that report all matches.
//!
//! The function has an empty body, and its clause is the law.

ghost use Rattle.rx_meaning.specs.AllMatches.{AllAreTold};

/// Take a table that serves a plan's build of all matches. An overlapping search anchored at a place reports a match of
/// a pattern exactly where the definition of expressions says that the pattern ends, unless the search reads a quit
/// byte.
pub fn all_matches_are_told()
    ensures { AllAreTold }
{}
