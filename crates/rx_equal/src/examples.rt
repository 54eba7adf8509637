//! Examples: small tables, what parts them, and what is evidence that nothing does.
//!
//! Each function has an empty body, and its clauses are the examples. They are spelled out in `specs/Examples.antt`.

ghost use Rattle.rx_equal.specs.Examples.{FourRowsAreSound, MoreDeadStarts, NoByteNoParting, NoNextNoEvidence};
ghost use Rattle.rx_equal.specs.Examples.{NoPairNoEvidence, NoStartNoEvidence, OrderParts, OtherPatternNoEvidence};
ghost use Rattle.rx_equal.specs.Examples.{PatternZeroAlone, PatternZeroParts, QuitParts, SilentRowIsDead};
ghost use Rattle.rx_equal.specs.Examples.{ThreeLinksSuffice, WhichPatternParts};

/// The tables of the examples are sound.
pub fn four_rows()
    ensures { FourRowsAreSound }
{}

/// Two tables without patterns, one with starts of patterns and one without: pattern 0 alone parts them.
pub fn tables_without_patterns()
    ensures parts { PatternZeroParts }
    ensures alone { PatternZeroAlone }
    ensures dead_starts { MoreDeadStarts }
{}

/// Two tables that report a match after the same words: which patterns they report, and in which order, parts them.
pub fn labels()
    ensures which { WhichPatternParts }
    ensures order { OrderParts }
    ensures no_byte { NoByteNoParting }
    ensures quit { QuitParts }
    ensures silent { SilentRowIsDead }
{}

/// Links of a table and itself: three of them are evidence, and fewer are none.
pub fn evidence()
    ensures whole { ThreeLinksSuffice }
    ensures no_start { NoStartNoEvidence }
    ensures no_next { NoNextNoEvidence }
    ensures no_pair { NoPairNoEvidence }
    ensures other_pattern { OtherPatternNoEvidence }
{}
