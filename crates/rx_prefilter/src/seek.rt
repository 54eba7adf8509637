//! The search for a literal in a text that is read and not kept.
//!
//! [`seek`] reads a source to its end through a buffer. Of what it has read it keeps one byte fewer than the literal
//! has, so it also finds a literal of which two reads have a part each. `specs/Seeking.antt` defines what it returns.
ghost use Rattle.std.specs.Prelude.{◌≡◌, ◌+◌, ◌<◌, ◌≤◌, ◌^◌, ℕ, List, length, drop, take, IfOk, Err, MatchOption, Some};
ghost use Rattle.std.specs.Io.KnownBytes.{Consumes, IsAtEnd};
ghost use Rattle.rx_spec.specs.Bytes.{AreBytes};
ghost use Rattle.rx_base.specs.Outside.{Rose};
ghost use Rattle.rx_base.specs.Source.{Reads, ReadCause};
ghost use Rattle.rx_prefilter.specs.Seeking.{IsFirstShown, IsSought};

pub mod laws;

use memchr::memmem::Finder;
use rx_base::{ReadAnswer, Source, Span};
use rx_transfer::{CHUNK, TextFault, read_front};
use std::alloc::Global;

/// What was read of a source in which a literal was looked for.
#[derive(Clone, Copy)]
pub struct Sought {
    /// The number of bytes that the source had.
    pub len: usize,
    /// Where the literal first lies in the span.
    pub place: Option<usize>,
}

/// Reads a source to its end, and looks for a literal in a span of what it reads.
pub fn seek<S: Source>(
    alloc: Global,
    src: &mut S,
    literal: &[u8],
    span: &Span,
    most: usize,
) -> Result<Sought, TextFault>
    requires literal { 0 < length literal.now }
    requires most { most ≤ 16777216 }
    ensures sought { IfOk result (λ s. (text : List ℕ) × Consumes (S.left src.old) (S.left src.new) text
        × IsSought text literal.now span.now.start span.now.end s.len s.place) }
    ensures end { IfOk result (λ s. IsAtEnd (S.left src.new)) }
    ensures few { IfOk result (λ s. s.len ≤ most) }
    ensures long { result ≡ Err TextFault.Long
        → (text : List ℕ) × (length text ≡ most + 1) × Consumes (S.left src.old) (S.left src.new) text }
    ensures failed { result ≡ Err TextFault.Failed → Rose (S.faults src.old) (S.faults src.new) }
    ensures counted { S.faults src.old ≤ S.faults src.new }
{
    let mut buffer = vec![in alloc; 0; literal.len() + CHUNK]?;
    seek_through(src, &mut buffer, literal, span, most)
}

/// The same through a buffer.
fn seek_through<S: Source>(
    src: &mut S,
    buffer: &mut [u8],
    literal: &[u8],
    span: &Span,
    most: usize,
) -> Result<Sought, TextFault>
    requires literal { 0 < length literal.now }
    requires most { most ≤ 16777216 }
    requires room { length buffer.old ≡ length literal.now + 65536 }
    ensures sought { IfOk result (λ s. (text : List ℕ) × Consumes (S.left src.old) (S.left src.new) text
        × IsSought text literal.now span.now.start span.now.end s.len s.place) }
    ensures end { IfOk result (λ s. IsAtEnd (S.left src.new)) }
    ensures few { IfOk result (λ s. s.len ≤ most) }
    ensures long { result ≡ Err TextFault.Long
        → (text : List ℕ) × (length text ≡ most + 1) × Consumes (S.left src.old) (S.left src.new) text }
    ensures failed { result ≡ Err TextFault.Failed → Rose (S.faults src.old) (S.faults src.new) }
    ensures counted { S.faults src.old ≤ S.faults src.new }
{
    let finder = Finder::new(literal);
    let mut sought = Sought {
        len: 0,
        place: None,
    };
    let mut kept = 0;
    'pieces: while sought.len <= most {
        let room = CHUNK.min(most + 1 - sought.len);
        let count = match read_behind(src, buffer, kept, room) {
            ReadAnswer::Got(count) => count,
            ReadAnswer::End => return Ok(sought),
            ReadAnswer::Failed => return Err(TextFault::Failed),
        };
        let shown = kept + count;
        let base = sought.len - kept;
        sought.place = place_in(&finder, &buffer[..shown], base, span, sought.place);
        sought.len += count;
        kept = shown.min(literal.len() - 1);
        buffer.copy_within(shown - kept..shown, 0);
    }
    Err(TextFault::Long)
}

/// Reads at most `room` bytes into a buffer, behind the first ones, which stay.
fn read_behind<S: Source>(src: &mut S, buffer: &mut [u8], kept: usize, room: usize) -> ReadAnswer
    requires some { 0 < room }
    requires within { kept + room ≤ length buffer.old }
    ensures bytes { Reads (S.left src.old) (S.left src.new) result (take room (drop kept buffer.new)) }
    ensures kept { take kept buffer.new ≡ take kept buffer.old }
    ensures len { length buffer.new ≡ length buffer.old }
    ensures cause { ReadCause (S.faults src.old) (S.faults src.new) result }
{
    read_front(src, &mut buffer[kept..], room)
}

/// The first offset in a span at which a literal lies in a window that stands at an offset. If an offset is known
/// already, this one.
fn place_in(
    finder: &Finder<'_>,
    window: &[u8],
    base: usize,
    span: &Span,
    known: Option<usize>,
) -> Option<usize>
    requires literal { 0 < length finder.now }
    requires small { base + length window.now < 2 ^ 63 }
    ensures first { MatchOption known
        (IsFirstShown window.now finder.now base span.now.start span.now.end result)
        (λ place. result ≡ Some place) }
    ensures bytes { AreBytes window.now }
{
    if known.is_some() {
        return known;
    }
    let high = span.end.saturating_sub(base).min(window.len());
    let low = span.start.saturating_sub(base).min(high);
    match finder.find(&window[low..high]) {
        Some(place) => Some(base + low + place),
        None => None,
    }
}
