//! The caller of `docs/calling/rx_stream.md`.

use rx_search::Automaton;
use rx_stream::{StreamEvent, StreamSearcher};

/// The greatest number of bytes in a text.
const MOST: u64 = 1 << 40;

/// Feeds a piece of at most a megabyte, and counts its matches. Returns none if the search can't go on: at a quit byte,
/// after the end of the text, or when the text is too long.
pub fn feed<A: Automaton>(searcher: &mut StreamSearcher<A>, piece: &[u8]) -> Option<u64> {
    let mut count: u64 = 0;
    let mut from = 0;
    for _ in 0..MOST {
        if !searcher.is_open() || searcher.taken() > MOST || from > piece.len() {
            return None;
        }
        if piece.len() > 1 << 20 {
            return None;
        }
        let fed = searcher.feed(piece, from);
        match fed.event {
            None => return Some(count),
            Some(StreamEvent::Quit { .. }) => return None,
            Some(StreamEvent::Match(_)) => count = count.saturating_add(1),
        }
        from = fed.used;
    }
    None
}

/// Ends the text, and counts the matches that only its end decides.
pub fn finish<A: Automaton>(searcher: &mut StreamSearcher<A>) -> u64 {
    let mut count: u64 = 0;
    for _ in 0..MOST {
        match searcher.finish() {
            Some(_) => count = count.saturating_add(1),
            None => break,
        }
    }
    count
}
