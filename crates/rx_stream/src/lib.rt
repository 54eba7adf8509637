//! Searches a text that comes in pieces.
//!
//! A [`StreamSearcher`] reports every match of a text in order and keeps none of the text: it holds a table, the id of
//! a state and a few numbers. However the text is cut into pieces, it reports what an overlapping search of the whole
//! text reports.
//!
//! Call [`StreamSearcher::feed`] with a piece until it returns no event, each time from the place that the last call
//! returned. Then feed the next piece. At the end of the text call [`StreamSearcher::finish`] until it returns no
//! event. [`skip`] is for walks of your own over a piece.
#![tactic(auto)]

mod event;
pub mod examples;
pub mod laws;
mod place;
mod searcher;
mod skips;
mod walk;

pub use event::{Fed, StreamEvent};
pub use searcher::StreamSearcher;
pub use skips::skip;
