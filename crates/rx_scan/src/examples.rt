//! Worked examples: tokens of short texts, which the definition computes.
//!
//! The function has an empty body, and each clause is an example. `specs/TokenExamples.antt` spells them out.

ghost use Rattle.rx_scan.specs.TokenExamples.{LongestThenLowest, NothingLeft, QuitTakesAll, StuckBehind};

/// Tokens by a table of eleven rows.
pub fn tokens_of_short_texts()
    ensures longest { LongestThenLowest }
    ensures stuck { StuckBehind }
    ensures nothing { NothingLeft }
    ensures quit { QuitTakesAll }
{}
