//! Pieces of a text.

ghost use Rattle.std.specs.Prelude.{◌≡◌, ◌≢◌, ◌≤◌, ◌+◌, ◌^◌, ◌++◌, [], length, true, IfOk, Err};
ghost use Rattle.rx_spec.specs.Bytes.{AreBytes};
ghost use Rattle.rx_base.specs.Outside.{Rose};
ghost use Rattle.rx_stream.specs.Calls.{is_open};
ghost use Rattle.rx_stream.specs.Remaining.{remaining};
ghost use Rattle.rx_feed.specs.Lines.{end_line, lines};
ghost use Rattle.rx_feed.specs.Outside.{Writes};
ghost use Rattle.rx_feed.specs.Pieces.{EndsAt};

use crate::fault::Fault;
use crate::lines::{end_line, event_line};
use crate::transfer::write_reply;
use rx_base::Sink;
use rx_search::Automaton;
use rx_stream::{Fed, StreamEvent, StreamSearcher};
use rx_transfer::write_text;

/// How a piece ends.
#[derive(Clone, Copy, Debug, PartialEq, Eq)]
pub(crate) enum PieceEnd {
    /// It was read to its end.
    Over,
    /// The search read a quit byte.
    Quit { byte: u8, offset: usize },
    /// The sink didn't take the line of a match.
    Failed,
}

/// Feeds a piece to a searcher and writes the line of each match.
pub(crate) fn feed_piece<A: Automaton, K: Sink>(
    searcher: &mut StreamSearcher<A>,
    piece: &[u8],
    out: &mut K,
) -> PieceEnd
    requires open { is_open searcher.old.place.stage ≡ true }
    requires room { searcher.old.place.taken + length piece.now ≤ 2 ^ 62 }
    ensures table { searcher.new.table ≡ searcher.old.table }
    ensures bytes { AreBytes piece.now }
    ensures fed { EndsAt (A.table searcher.old.table) (A.ids searcher.old.table) searcher.old.place
        searcher.new.place piece.now (record { before = K.written out.old; after = K.written out.new }) result }
    ensures failed { result ≡ PieceEnd.Failed → Rose (K.faults out.old) (K.faults out.new) }
    ensures counted { K.faults out.old ≤ K.faults out.new }
{
    let mut from = 0;
    'events: loop {
        let Fed { used, event } = searcher.feed(piece, from);
        let Some(event) = event else {
            return PieceEnd::Over;
        };
        if let StreamEvent::Quit { byte, offset } = event {
            return PieceEnd::Quit { byte, offset };
        }
        if !write_text(out, event_line(&event).as_slice()) {
            return PieceEnd::Failed;
        }
        from = used;
    }
}

/// Ends a text of `count` bytes: writes the line of each match that the end decides, and the last line.
pub(crate) fn finish<A: Automaton, K: Sink>(
    searcher: &mut StreamSearcher<A>,
    count: u64,
    out: &mut K,
) -> Result<u8, Fault>
    ensures written { Writes (K.written out.old) (K.written out.new)
        (lines (remaining (A.table searcher.old.table) (A.ids searcher.old.table) searcher.old.place [])
        ++ end_line count) 0 result }
    ensures told { IfOk result (λ told. told ≡ 0) }
    ensures not_source { result ≢ Err Fault.Source }
    ensures failed { result ≡ Err Fault.Sink → Rose (K.faults out.old) (K.faults out.new) }
    ensures counted { K.faults out.old ≤ K.faults out.new }
{
    'events: while let Some(event) = searcher.finish() {
        if !write_text(out, event_line(&event).as_slice()) {
            return Err(Fault::Sink);
        }
    }
    write_reply(out, end_line(count).as_slice(), 0)
}
