//! A law of the command, as a function with an empty body.

ghost use Rattle.rx_feed.specs.Replies.{IsOneAnswer};

/// At most one text and one status answer the bytes that were read, whether or not the source ended after them.
pub fn one_answer()
    ensures { IsOneAnswer }
{}
