//! Where the answers of a search lie, and what they depend on.

ghost use Rattle.rx_meaning.specs.Bounds.{HalfInBounds, HalfQuits, HalfUnsplitInBounds, HalfUnsplitQuits};
ghost use Rattle.rx_meaning.specs.Bounds.{JoinInBounds, JoinQuits, OverlappingInBounds, OverlappingQuits};
ghost use Rattle.rx_meaning.specs.Bounds.{OverlappingUnsplitInBounds, OverlappingUnsplitQuits, SpanDecides};
ghost use Rattle.rx_meaning.specs.Bounds.{SpanDecidesBuild, SpanDecidesIterate, SpanDecidesJoin};
ghost use Rattle.rx_meaning.specs.Bounds.{SpanDecidesOutcome, SpanDecidesOverlapping};
ghost use Rattle.rx_meaning.specs.Bounds.{SpanDecidesOverlappingUnsplit, SpanDecidesUnsplit};

/// A sound table tells matches of its patterns alone, at offsets of the span.
pub fn told_in_bounds()
    ensures half { HalfInBounds }
    ensures half_unsplit { HalfUnsplitInBounds }
    ensures overlapping { OverlappingInBounds }
    ensures overlapping_unsplit { OverlappingUnsplitInBounds }
    ensures join { JoinInBounds }
{}

/// Where a sound table quits, it names a byte of the span or one of its two neighbours: one that stands beside the span
/// and can't be searched, or that leads to the quit row from the very row in which the search reads it.
pub fn quits_in_bounds()
    ensures half { HalfQuits }
    ensures half_unsplit { HalfUnsplitQuits }
    ensures overlapping { OverlappingQuits }
    ensures overlapping_unsplit { OverlappingUnsplitQuits }
    ensures join { JoinQuits }
{}

/// What is answered depends on the span's bytes and on its two neighbours alone.
pub fn span_decides()
    ensures half { SpanDecides }
    ensures half_unsplit { SpanDecidesUnsplit }
    ensures overlapping { SpanDecidesOverlapping }
    ensures overlapping_unsplit { SpanDecidesOverlappingUnsplit }
    ensures join { SpanDecidesJoin }
    ensures iterate { SpanDecidesIterate }
    ensures build { SpanDecidesBuild }
    ensures outcome { SpanDecidesOutcome }
{}
