//! An embedded searcher: reports where alarms end in a text that comes in small pieces.
//!
//! `example_programs embedded`: the table is part of the program. `embedded/image.rt` has the bytes of a sparse image,
//! which `image all le` wrote for the patterns of `data/alarms.patterns`, and it is searched in place. Memory is taken
//! only while the image is checked. The text goes through a buffer of 64 bytes, and a match may begin in one piece and
//! end in another.
//!
//! Each match is a line: its pattern and the offset of its end. The status is 1 if nothing matches, 2 if the image is
//! rejected, a quit byte was read or the text has more than 2^40 bytes, and 3 if the input or the output failed.

ghost use Rattle.std.specs.Prelude.{◌+◌, ◌≤◌, ◌^◌, length};
ghost use Rattle.rx_sparse.specs.Facts.{IsSoundLayout};

mod image;

use image::IMAGE;
use rx_base::Anchored;
use rx_image::SparseRead;
use rx_sparse::DFA;
use rx_stream::{StreamEvent, StreamSearcher};
use std::io::{self, Read};
use std::process::ExitCode;

/// The greatest length of a piece in bytes.
const PIECE: usize = 64;

/// The greatest length of a text in bytes.
const MOST: u64 = 1 << 40;

/// Runs the program.
pub(crate) fn main(rt: &HostRuntime) -> ExitCode {
    let Ok((table, _)) = DFA::<&[u8]>::from_bytes(rt.alloc(), IMAGE) else {
        return ExitCode::from(2);
    };
    match search(rt, &table) {
        Ok(Some(0)) => ExitCode::FAILURE,
        Ok(Some(_)) => ExitCode::SUCCESS,
        Ok(None) => ExitCode::from(2),
        Err(_) => ExitCode::from(3),
    }
}

/// Writes the line of a match, or nothing for another event.
fn tell(rt: &HostRuntime, event: &StreamEvent) -> io::Result<()> {
    if let StreamEvent::Match(found) = event {
        println!(rt; "{} {}", found.pattern().as_usize(), found.offset())?;
    }
    Ok(())
}

/// Feeds a piece and reports each match as it comes. Returns the number of matches, or `None` at a quit byte or after
/// the longest text.
fn feed(
    rt: &HostRuntime,
    searcher: &mut StreamSearcher<&DFA<&[u8]>>,
    piece: &[u8],
) -> io::Result<Option<u64>>
    requires { length piece.now ≤ 64 }
{
    let mut told: u64 = 0;
    let mut from = 0;
    for _ in 0..MOST {
        if !searcher.is_open() || searcher.taken() > MOST || from > piece.len() {
            return Ok(None);
        }
        let fed = searcher.feed(piece, from);
        from = fed.used;
        match fed.event {
            None => return Ok(Some(told)),
            Some(StreamEvent::Quit { .. }) => return Ok(None),
            Some(event) => tell(rt, &event)?,
        }
        told = told.saturating_add(1);
    }
    Ok(None)
}

/// Reports the matches that the end of the text decides. Returns their number.
fn finish(rt: &HostRuntime, searcher: &mut StreamSearcher<&DFA<&[u8]>>) -> io::Result<u64> {
    let mut told: u64 = 0;
    for _ in 0..MOST {
        match searcher.finish() {
            Some(event) => tell(rt, &event)?,
            None => break,
        }
        told = told.saturating_add(1);
    }
    Ok(told)
}

/// Searches standard input piece by piece. Returns the number of matches, or `None` if the search stopped early.
fn search(rt: &HostRuntime, table: &DFA<&[u8]>) -> io::Result<Option<u64>>
    requires { IsSoundLayout table.now.layout }
{
    let Ok(mut searcher) = StreamSearcher::new(table, Anchored::No) else {
        return Ok(None);
    };
    let mut reader = rt.reader();
    let mut buffer = [0u8; PIECE];
    let mut told: u64 = 0;
    for _ in 0..MOST {
        let len = reader.read(&mut buffer)?;
        if len == 0 {
            break;
        }
        match feed(rt, &mut searcher, &buffer[..len])? {
            Some(more) => told = told.saturating_add(more),
            None => return Ok(None),
        }
    }
    Ok(Some(told.saturating_add(finish(rt, &mut searcher)?)))
}
