//! The lines of the output.

ghost use Rattle.std.specs.Prelude.{◌≡◌, ◌≢◌, ◌<◌, MatchOption};
ghost use Rattle.rx_base.specs.Search.{mode_of};
ghost use Rattle.rx_wire.specs.Kinds.{Kind, kind_of};
ghost use Rattle.rx_stream.specs.declared.event.StreamEvent.{StreamEvent as Event};
ghost use Rattle.rx_transfer.specs.Words.{hex_code};
ghost use Rattle.rx_feed.specs.Lines.{end_line, event_line, quit_line, refused_line, unsupported_line};

use crate::line::Line;
use rx_base::{Anchored, HalfMatch};
use rx_stream::StreamEvent;
use rx_wire::DeserializeErrorKind;

/// The line of an event.
pub(crate) fn event_line(event: &StreamEvent) -> Line
    ensures { result ≡ event_line event.now }
{
    match event {
        StreamEvent::Match(found) => match_line(found),
        StreamEvent::Quit { byte, offset } => quit_line(*byte, *offset),
    }
}

/// The line of a match.
fn match_line(found: &HalfMatch) -> Line
    ensures { result ≡ event_line (Event.Match found.now) }
{
    let mut line = Line::new();
    line.prepend_number(found.offset() as u64);
    line.prepend(b" ");
    line.prepend_number(u64::from(found.pattern().as_u32()));
    line.prepend(b"match ");
    line
}

/// The line of a quit byte.
pub(crate) fn quit_line(byte: u8, offset: usize) -> Line
    ensures { result ≡ quit_line byte offset }
{
    let mut line = Line::new();
    line.prepend_number(offset as u64);
    line.prepend(b" ");
    line.prepend(&[hex_digit(byte / 16), hex_digit(byte % 16)]);
    line.prepend(b"quit ");
    line
}

/// A lower-case hexadecimal digit.
fn hex_digit(digit: u8) -> u8
    requires { digit < 16 }
    ensures { result ≡ hex_code digit }
{
    if digit < 10 {
        b'0' + digit
    } else {
        b'a' + digit - 10
    }
}

/// The last line, for a text of `count` bytes.
pub(crate) fn end_line(count: u64) -> Line
    ensures { result ≡ end_line count }
{
    let mut line = Line::new();
    line.prepend_number(count);
    line.prepend(b"end ");
    line
}

/// The line for a mode without start states.
pub(crate) fn unsupported_line(mode: &Anchored) -> Line
    ensures { result ≡ unsupported_line (mode_of mode.now) }
{
    let mut line = Line::new();
    match mode {
        Anchored::No => line.prepend(b"no"),
        Anchored::Yes => line.prepend(b"yes"),
        Anchored::Pattern(pattern) => {
            line.prepend_number(u64::from(pattern.as_u32()));
            line.prepend(b"p");
        }
    }
    line.prepend(b"unsupported ");
    line
}

/// The line that names the test that an image fails, or `None` if memory ran out.
pub(crate) fn refused_line(kind: &DeserializeErrorKind) -> Option<&'static str>
    ensures { MatchOption result (kind_of kind.now ≡ Kind.Memory) (λ line.
        (kind_of kind.now ≢ Kind.Memory) × (line.now ≡ refused_line (kind_of kind.now))) }
{
    match kind {
        DeserializeErrorKind::Generic { .. } => Some("refused generic\n"),
        DeserializeErrorKind::BufferTooSmall { .. } => Some("refused buffer\n"),
        DeserializeErrorKind::VersionMismatch { .. } => Some("refused version\n"),
        DeserializeErrorKind::EndianMismatch { .. } => Some("refused endian\n"),
        DeserializeErrorKind::LabelMismatch { .. } => Some("refused label\n"),
        DeserializeErrorKind::PatternID { .. } => Some("refused pattern\n"),
        DeserializeErrorKind::StateID { .. } => Some("refused state\n"),
        DeserializeErrorKind::Memory => None,
    }
}
