//! The values that every crate speaks of: ids, spans and inputs, matches and errors of searches, sets of
//! bytes and of patterns, byte classes, what is known of a neighbour, and the outside, a source of bytes
//! and a sink for them. The counter of `rx_spec` is handed on.
//!
//! The contract of this crate is that contracts above see these values as the numbers, sets, lists and
//! records of the definitions: an id as its number, a [`ByteSet`] as a set of bytes, a [`Match`] as a
//! match, an [`Input`] as a query. Start with [`Input`], what is searched, and [`Match`], what is found.
#![tactic(auto)]

mod byte_classes;
mod byte_set;
mod facts;
mod input;
mod looks;
mod match_error;
mod needles;
mod pattern_set;
mod primitives;
mod search;
mod sink;
mod source;
pub mod start;

pub use byte_classes::{ByteClassSet, ByteClasses, Elements, Representatives};
pub use byte_set::ByteSet;
pub use facts::Facts;
pub use input::{Input, Searcher};
pub use looks::{LookMatcher, LookSet};
pub use match_error::{MatchError, MatchErrorKind};
pub use needles::Needles;
pub use pattern_set::PatternSet;
pub use primitives::{IdError, PatternID, StateID};
pub use rx_spec::{Direction, Look, MatchKind, Start, StartKind, Steps, Tally, Unit};
pub use search::{Anchored, HalfMatch, Match, Span};
pub use sink::{MemSink, Sink, WriteAnswer, WriteSink};
pub use source::{MemSource, ReadAnswer, ReadSource, Source};
pub use start::StartByteMap;
