//! The caller of `docs/calling/rx_scan.md`.

use rx_scan::{ScanEnd, Scanner};
use rx_search::Automaton;

/// How many tokens a text has, or the offset where it can't be cut.
pub fn count<A: Automaton>(table: &A, text: &[u8]) -> Result<u64, usize>
    requires { A.IsSound table.now }
{
    let mut count: u64 = 0;
    let mut scanner = Scanner::new(table, text);
    for _token in &mut scanner {
        count = count.saturating_add(1);
    }
    match scanner.end() {
        Some(ScanEnd::Stuck { offset }) | Some(ScanEnd::Quit { offset, .. }) => Err(offset),
        Some(ScanEnd::Unsupported) => Err(0),
        Some(ScanEnd::Done) | None => Ok(count),
    }
}
