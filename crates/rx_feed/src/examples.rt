//! Worked examples: the lines of `feed` for short texts, which the definitions compute. The body is empty, and the
//! contract is the example.

ghost use Rattle.rx_feed.specs.Examples.{EndsText, QuitsText, RefusesMode};

/// A text that ends, a text with a quit byte, and a mode without start states.
pub fn answers()
    ensures ended { EndsText }
    ensures quit { QuitsText }
    ensures refused { RefusesMode }
{}
