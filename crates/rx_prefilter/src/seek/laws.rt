//! Worked examples of what is told of a text that ends before the span does.

ghost use Rattle.rx_prefilter.specs.SeekingExamples.{AtTheEnd, CutByEnd};

/// The literal `ab` behind the first two bytes of `xabab`, and of `xaba`.
pub fn texts_that_end()
    ensures at_the_end { AtTheEnd }
    ensures cut_by_end { CutByEnd }
{}
