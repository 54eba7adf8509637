//! The input of a search.

ghost use Rattle.std.specs.Prelude.{◌≡◌, ◌+◌, ◌<◌, ◌≤◌, ◌↔◌, IsTrue, length, false, not};

mod searcher;

use crate::search::{Anchored, Span};
pub use searcher::Searcher;

/// A haystack with the span that is searched, where a match may begin, and whether the first end met
/// will do.
///
/// The bytes outside the span are never part of a match, but assertions see them. A span fits where
/// its end is at most the haystack's length, and its start at most one above its end. The calls that
/// set a span ask for that, and so every input fits; the searches name it as their condition. An input
/// with the start above the end is done: every search of it gives none.
#[derive(Clone, Copy, Debug)]
pub struct Input<'h> {
    haystack: &'h [u8],
    span: Span,
    anchored: Anchored,
    earliest: bool,
}

impl<'h> Input<'h> {
    ghost use Rattle.rx_base.specs.Input.{query_of};
    ghost use Rattle.rx_base.specs.Search.{mode_of};
    ghost use Rattle.rx_spec.specs.Bytes.{AreBytes};
    ghost use Rattle.rx_spec.specs.Queries.{Anchored as Mode, is_done, IsFit};
    ghost use Rattle.rx_spec.specs.Splits.{is_split};

    /// The whole haystack, with no anchor.
    pub fn new(haystack: &'h [u8]) -> Input<'h>
        ensures asked { query_of result
            ≡ record {
              haystack = haystack.now;
              start = 0;
              end = length haystack.now;
              mode = Mode.No;
              earliest = false;
            } }
        ensures fits { IsFit (query_of result) }
        ensures bytes { AreBytes haystack.now }
    {
        Input {
            haystack,
            span: Span {
                start: 0,
                end: haystack.len(),
            },
            anchored: Anchored::No,
            earliest: false,
        }
    }

    /// Whether a span may be searched in a haystack of this length: its end is at most the length,
    /// and its start at most one above its end.
    pub fn fits(len: usize, start: usize, end: usize) -> bool
        ensures { IsTrue result ↔ ((end ≤ len) × (start ≤ end + 1)) }
    {
        end <= len && (start <= end || start - end == 1)
    }

    /// The same with this span, which must fit.
    pub fn span(self, span: Span) -> Input<'h>
        requires within { span.end ≤ length (query_of self).haystack }
        requires ordered { span.start ≤ span.end + 1 }
        ensures asked { query_of result ≡ record (query_of self.entry) { start = span.start; end = span.end } }
        ensures fits { IsFit (query_of result) }
    {
        Input { span, ..self }
    }

    /// The same with the span from `start` to `end`, which must fit.
    pub fn range(self, start: usize, end: usize) -> Input<'h>
        requires within { end ≤ length (query_of self).haystack }
        requires ordered { start ≤ end + 1 }
        ensures asked { query_of result ≡ record (query_of self.entry) { start = start; end = end } }
        ensures fits { IsFit (query_of result) }
    {
        Input {
            span: Span { start, end },
            ..self
        }
    }

    /// The same in this mode.
    pub fn anchored(self, mode: Anchored) -> Input<'h>
        ensures { query_of result ≡ record (query_of self.entry) { mode = mode_of mode } }
    {
        Input {
            anchored: mode,
            ..self
        }
    }

    /// The same, with the choice whether the first end met will do.
    pub fn earliest(self, yes: bool) -> Input<'h>
        ensures { query_of result ≡ record (query_of self.entry) { earliest = yes } }
    {
        Input {
            earliest: yes,
            ..self
        }
    }

    /// Sets the span, which must fit.
    pub fn set_span(&mut self, span: Span)
        requires within { span.end ≤ length (query_of self.old).haystack }
        requires ordered { span.start ≤ span.end + 1 }
        ensures { query_of self.new ≡ record (query_of self.old) { start = span.start; end = span.end } }
    {
        self.span = span;
    }

    /// Sets the span's start. The span must still fit.
    pub fn set_start(&mut self, start: usize)
        requires ordered { start ≤ (query_of self.old).end + 1 }
        ensures { query_of self.new ≡ record (query_of self.old) { start = start } }
    {
        self.span.start = start;
    }

    /// Sets the span's end. The span must still fit.
    pub fn set_end(&mut self, end: usize)
        requires within { end ≤ length (query_of self.old).haystack }
        requires ordered { (query_of self.old).start ≤ end + 1 }
        ensures { query_of self.new ≡ record (query_of self.old) { end = end } }
    {
        self.span.end = end;
    }

    /// Sets the mode.
    pub fn set_anchored(&mut self, mode: Anchored)
        ensures { query_of self.new ≡ record (query_of self.old) { mode = mode_of mode } }
    {
        self.anchored = mode;
    }

    /// Sets whether the first end met will do.
    pub fn set_earliest(&mut self, yes: bool)
        ensures { query_of self.new ≡ record (query_of self.old) { earliest = yes } }
    {
        self.earliest = yes;
    }

    /// The haystack, whole.
    #[inline]
    pub fn haystack(&self) -> &'h [u8]
        ensures { result.now ≡ (query_of self.now).haystack }
    {
        self.haystack
    }

    /// The first offset of the span.
    #[inline]
    pub fn start(&self) -> usize
        ensures { result ≡ (query_of self.now).start }
    {
        self.span.start
    }

    /// The offset after the span.
    #[inline]
    pub fn end(&self) -> usize
        ensures { result ≡ (query_of self.now).end }
    {
        self.span.end
    }

    /// The span.
    pub fn get_span(&self) -> Span
        ensures start { result.start ≡ (query_of self.now).start }
        ensures end { result.end ≡ (query_of self.now).end }
    {
        self.span
    }

    /// The mode.
    pub fn get_anchored(&self) -> Anchored
        ensures { mode_of result ≡ (query_of self.now).mode }
    {
        self.anchored
    }

    /// Whether the first end met will do.
    pub fn get_earliest(&self) -> bool
        ensures { result ≡ (query_of self.now).earliest }
    {
        self.earliest
    }

    /// Whether the start is above the end, so that every search gives none.
    pub fn is_done(&self) -> bool
        ensures { result ≡ is_done (query_of self.now) }
    {
        self.span.start > self.span.end
    }

    /// Whether an offset is within the haystack and splits no character: it is the haystack's end, or
    /// its byte begins a character.
    pub fn is_char_boundary(&self, offset: usize) -> bool
        ensures { let haystack = (query_of self.now).haystack in
            IsTrue result ↔ ((offset ≤ length haystack) × (is_split haystack offset ≡ false)) }
    {
        match self.haystack.get(offset) {
            Some(byte) => *byte < 0x80 || *byte >= 0xc0,
            None => offset == self.haystack.len(),
        }
    }
}
