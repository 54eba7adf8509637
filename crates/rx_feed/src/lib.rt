//! The command `feed`: searches a text in pieces and writes a line for each match.
//!
//! [`feed`] reads the image of a table and then a text, which it doesn't keep. It writes each match as soon as the text
//! decides it, so a text may be longer than memory.
//!
//! The contract is `FeedEnds` in `specs/Run.antt`: what was read and written, for each way in which a run ends.
//! `FeedReplies` in `specs/Replies.antt` defines the reply.
#![tactic(auto)]

mod command;
pub mod examples;
mod fault;
pub mod laws;
mod line;
mod lines;
mod piece;
mod stream;
mod transfer;

pub use command::feed;
pub use fault::Fault;
