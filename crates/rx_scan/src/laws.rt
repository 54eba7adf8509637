//! What the tokens are of the expressions.
//!
//! The function has an empty body, and its clause is the law.

ghost use Rattle.rx_scan.specs.Tokens.{TokensAreLongest};

/// If the table reports all matches of some expressions, each token of a text is the longest match from where it
/// starts, of the lowest expression that matches so far.
pub fn tokens_are_longest()
    ensures { TokensAreLongest }
{}
