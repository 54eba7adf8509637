//! A log filter: copies the lines of standard input in which a match begins. Each match is sought after the last one.
//!
//! `example_programs log_filter IMAGE`: the filter is in `data/upgrades.script`. `image pair le` built its two tables
//! once, as the image `data/upgrades.pair`. The text is searched whole and not line by line, so lines without a match
//! only cost the search over them.
//!
//! The status is 0 if a line was copied and 1 if none was, like `grep`'s, 2 for wrong words, a file that isn't such an
//! image or a search that gave up, and 3 if memory, an input or an output failed.

ghost use Rattle.std.specs.Prelude.{◌≤◌, length};
ghost use Rattle.rx_image.specs.Tables.{AreSound};

use memchr::{memchr, memrchr};
use rx_base::{Input, MatchError, Span};
use rx_image::{Tables, read_pair};
use rx_pair::Regex;
use rx_search::Automaton;
use std::io::{self, BufWriter, Read, Write};
use std::process::ExitCode;
use std::{env, fs};
use thiserror::Error;

/// Why a text isn't filtered.
#[derive(Debug, Drop, Error)]
enum Fault {
    /// The words are wrong.
    #[error("usage: example_programs log_filter IMAGE < TEXT")]
    Usage,
    /// The file isn't the image of a pair.
    #[error("the file is no image of a pair of tables")]
    Image,
    /// A search read a quit byte, or the tables don't belong together.
    #[error("{0}")]
    Search(#[from] MatchError),
    /// Memory ran out, or an input or an output failed.
    #[error("{0}")]
    Io(#[from] io::Error),
}

/// The line around a place, with the byte that ends it if there is one.
fn line_at(text: &[u8], at: usize) -> Span
    requires { at ≤ length text.now }
    ensures start { result.start ≤ at }
    ensures end { result.end ≤ length text.now }
    ensures around { at ≤ result.end }
{
    let (before, after) = text.split_at(at);
    let start = match memrchr(b'\n', before) {
        Some(end) => end + 1,
        None => 0,
    };
    let end = match memchr(b'\n', after) {
        Some(end) => at + end + 1,
        None => text.len(),
    };
    Span { start, end }
}

/// Copies the lines in which a match begins, and returns their number.
fn copy_lines<A: Automaton, W: Write>(
    out: &mut W,
    regex: &Regex<A>,
    text: &[u8],
) -> Result<u64, Fault> {
    let mut copied: u64 = 0;
    let mut end = 0;
    for found in regex.find_iter(&Input::new(text)) {
        let found = found?;
        if found.start() < end {
            continue;
        }
        let line = line_at(text, found.start());
        out.write_all(&text[line.start..line.end])?;
        copied = copied.saturating_add(1);
        end = line.end;
    }
    Ok(copied)
}

/// Copies the lines of a text by the tables of an image.
fn filter<W: Write>(out: &mut W, tables: &Tables<'_>, text: &[u8]) -> Result<u64, Fault>
    requires { AreSound tables.now }
{
    match tables {
        Tables::Dense(forward, reverse) => copy_lines(out, &Regex::new(forward, reverse), text),
        Tables::Sparse(forward, reverse) => copy_lines(out, &Regex::new(forward, reverse), text),
    }
}

/// Reads the image and the text, and copies lines.
fn run(rt: &HostRuntime) -> Result<u64, Fault> {
    let path = env::args(rt)?.nth(2).ok_or(Fault::Usage)?;
    let image = fs::read(rt, path.as_str())?;
    let mut text = Vec::new(rt.alloc());
    rt.reader().read_to_end(&mut text)?;
    let mut out = BufWriter::new(rt.alloc(), io::writer(rt))?;
    let (tables, _) = read_pair(rt.alloc(), &image).map_err(|_| Fault::Image)?;
    let copied = filter(&mut out, &tables, &text)?;
    out.flush()?;
    Ok(copied)
}

/// Runs the program.
pub(crate) fn main(rt: &HostRuntime) -> ExitCode {
    match run(rt) {
        Ok(0) => ExitCode::FAILURE,
        Ok(_) => ExitCode::SUCCESS,
        Err(fault) => {
            let _ = eprintln!(rt; "{fault}");
            match fault {
                Fault::Io(_) => ExitCode::from(3),
                _ => ExitCode::from(2),
            }
        }
    }
}
