//! Worked examples: where a literal first lies in a text, and what a pair of tables that searches for it finds.

ghost use Rattle.rx_prefilter.specs.LiteralExamples.{BehindTheFirst, CutBySpan, FindsIt, FindsNone, InText};

/// The first places of `ab` in spans of `xabab`.
pub fn first_places()
    ensures in_text { InText }
    ensures behind_the_first { BehindTheFirst }
    ensures cut_by_span { CutBySpan }
{}

/// The matches that tables for `ab` give of such spans.
pub fn matches()
    ensures finds_it { FindsIt }
    ensures finds_none { FindsNone }
{}
