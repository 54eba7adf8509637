//! Texts in pieces.

ghost use Rattle.std.specs.Prelude.{◌≡◌, ◌≢◌, ◌≤◌, length, true, false, [], IfOk, Err};
ghost use Rattle.std.specs.Io.KnownBytes.{IsAtEnd};
ghost use Rattle.rx_spec.specs.Queries.{Anchored as Mode};
ghost use Rattle.rx_base.specs.Outside.{Rose};
ghost use Rattle.rx_base.specs.Search.{mode_of};
ghost use Rattle.rx_stream.specs.Calls.{is_open, IsNew};
ghost use Rattle.rx_stream.specs.Remaining.{now};
ghost use Rattle.rx_feed.specs.Replies.{most_of_piece};
ghost use Rattle.rx_feed.specs.Run.{ReadEnds, Refuses, StreamEnds};

use crate::fault::Fault;
use crate::lines::{quit_line, refused_line, unsupported_line};
use crate::piece::{PieceEnd, feed_piece, finish};
use crate::transfer::write_reply;
use rx_base::{Anchored, ReadAnswer, Sink, Source};
use rx_search::Automaton;
use rx_stream::StreamSearcher;
use rx_wire::DeserializeError;

/// The most bytes of a text.
const MOST_DATA: u64 = 1 << 40;

/// The most bytes of a piece.
pub(crate) const PIECE: usize = 4096;

const LONG_LINE: &[u8] = b"long\n";

/// Searches a text piece by piece with the table of an image. If the image was rejected, writes why and reads nothing.
pub(crate) fn feed_read<A: Automaton, S: Source, K: Sink>(
    read: Result<(A, usize), DeserializeError>,
    mode: Anchored,
    over: bool,
    buffer: &mut [u8],
    src: &mut S,
    out: &mut K,
) -> Result<u8, Fault>
    requires sound { IfOk read (λ x. A.IsSound x.0) }
    requires end { over ≡ true → IsAtEnd (S.left src.old) }
    requires room { length buffer.old ≡ most_of_piece }
    ensures ends { ReadEnds A.table (mode_of mode) over (record {
      left_before = S.left src.old;
      left_after = S.left src.new;
      written_before = K.written out.old;
      written_after = K.written out.new;
    }) read result }
    ensures few { IfOk result (λ status. status ≤ 4) }
    ensures cut { result ≡ Err Fault.Source → Rose (S.faults src.old) (S.faults src.new) }
    ensures failed { result ≡ Err Fault.Sink → Rose (K.faults out.old) (K.faults out.new) }
    ensures source_faults { S.faults src.old ≤ S.faults src.new }
    ensures sink_faults { K.faults out.old ≤ K.faults out.new }
{
    match read {
        Ok((table, _)) => feed_stream(table, mode, over, buffer, src, out),
        Err(error) => refuse(&error, out),
    }
}

/// Writes the test that an image fails.
fn refuse<K: Sink>(error: &DeserializeError, out: &mut K) -> Result<u8, Fault>
    ensures refuses { Refuses error.now (record { before = K.written out.old; after = K.written out.new }) result }
    ensures few { IfOk result (λ status. status ≤ 4) }
    ensures failed { result ≡ Err Fault.Sink → Rose (K.faults out.old) (K.faults out.new) }
    ensures not_source { result ≢ Err Fault.Source }
    ensures counted { K.faults out.old ≤ K.faults out.new }
{
    match refused_line(error.kind()) {
        Some(line) => write_reply(out, line.as_bytes(), 1),
        None => Err(Fault::Memory),
    }
}

/// Searches a text piece by piece with a table. If the source ended already, the text is empty and nothing more is
/// read.
pub(crate) fn feed_stream<A: Automaton, S: Source, K: Sink>(
    table: A,
    mode: Anchored,
    over: bool,
    buffer: &mut [u8],
    src: &mut S,
    out: &mut K,
) -> Result<u8, Fault>
    requires sound { A.IsSound table }
    requires end { over ≡ true → IsAtEnd (S.left src.old) }
    requires room { length buffer.old ≡ most_of_piece }
    ensures ends { StreamEnds (A.table table) (mode_of mode) over (record {
      left_before = S.left src.old;
      left_after = S.left src.new;
      written_before = K.written out.old;
      written_after = K.written out.new;
    }) result }
    ensures few { IfOk result (λ status. status ≤ 4) }
    ensures cut { result ≡ Err Fault.Source → Rose (S.faults src.old) (S.faults src.new) }
    ensures failed { result ≡ Err Fault.Sink → Rose (K.faults out.old) (K.faults out.new) }
    ensures source_faults { S.faults src.old ≤ S.faults src.new }
    ensures sink_faults { K.faults out.old ≤ K.faults out.new }
{
    let mut searcher = match StreamSearcher::new(table, mode) {
        Ok(searcher) => searcher,
        Err(_) => {
            let line = unsupported_line(&mode);
            return write_reply(out, line.as_slice(), 4);
        }
    };
    if over {
        finish(&mut searcher, 0, out)
    } else {
        feed_pieces(&mut searcher, buffer, src, out)
    }
}

/// Feeds a text to a new searcher and writes what it reports.
fn feed_pieces<A: Automaton, S: Source, K: Sink>(
    searcher: &mut StreamSearcher<A>,
    buffer: &mut [u8],
    src: &mut S,
    out: &mut K,
) -> Result<u8, Fault>
    requires open { is_open searcher.old.place.stage ≡ true }
    requires taken { searcher.old.place.taken ≡ 0 }
    requires room { length buffer.old ≡ most_of_piece }
    requires none { now (A.table searcher.old.table) (A.ids searcher.old.table) searcher.old.place [] ≡ [] }
    ensures ends { (mode : Mode)
        → IsNew (A.table searcher.old.table) (A.ids searcher.old.table) mode searcher.old.place
        → StreamEnds (A.table searcher.old.table) mode false (record {
          left_before = S.left src.old;
          left_after = S.left src.new;
          written_before = K.written out.old;
          written_after = K.written out.new;
        }) result }
    ensures few { IfOk result (λ status. status ≤ 4) }
    ensures cut { result ≡ Err Fault.Source → Rose (S.faults src.old) (S.faults src.new) }
    ensures failed { result ≡ Err Fault.Sink → Rose (K.faults out.old) (K.faults out.new) }
    ensures source_faults { S.faults src.old ≤ S.faults src.new }
    ensures sink_faults { K.faults out.old ≤ K.faults out.new }
{
    let mut taken = 0;
    'pieces: while taken <= MOST_DATA {
        let count = match src.read(buffer) {
            ReadAnswer::Got(count) => count,
            ReadAnswer::End => return finish(searcher, taken, out),
            ReadAnswer::Failed => return Err(Fault::Source),
        };
        taken += count as u64;
        match feed_piece(searcher, &buffer[..count], out) {
            PieceEnd::Over => {}
            PieceEnd::Failed => return Err(Fault::Sink),
            PieceEnd::Quit { .. } if taken > MOST_DATA => return write_reply(out, LONG_LINE, 2),
            PieceEnd::Quit { byte, offset } => {
                return write_reply(out, quit_line(byte, offset).as_slice(), 4);
            }
        }
    }
    write_reply(out, LONG_LINE, 2)
}
