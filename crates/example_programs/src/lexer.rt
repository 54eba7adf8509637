//! A lexer: writes the tokens of a source file of a small language, which comes on standard input.
//!
//! `example_programs lexer IMAGE`: the rules are in `data/lexer.patterns`, one on each line. Of two rules with matches
//! of the same length the earlier one wins, so keywords come before names. `examples/script` and `image all le` built
//! their table once, as the image `data/lexer.image`. The program has no expressions: it reads the image, and one loop
//! is the lexer.
//!
//! Each token is a line: its line and column, its kind and its text. Spaces and comments are left out. The status is 1
//! if no rule matches at some place, 2 for wrong words, a file that isn't such an image or a table that gave up, and 3
//! if memory, an input or an output failed.

ghost use Rattle.rx_sparse.specs.Facts.{IsSoundLayout};

use rx_image::SparseRead;
use rx_scan::{ScanEnd, Scanner, Token};
use rx_sparse::DFA;
use rx_wire::DeserializeError;
use std::io::{self, BufWriter, Read, Write};
use std::process::ExitCode;
use std::{env, fs};
use thiserror::Error;

/// The kinds of tokens, a name for each rule.
const KINDS: [&str; 8] = [
    "space", "comment", "keyword", "name", "number", "text", "operator", "mark",
];

/// The number of rules whose tokens are left out: spaces and comments.
const SILENT: usize = 2;

/// Why not all tokens were written.
#[derive(Debug, Drop, Error)]
enum Fault {
    /// The words are wrong.
    #[error("usage: example_programs lexer IMAGE < SOURCE")]
    Usage,
    /// The file isn't the image of a sparse table.
    #[error("{0}")]
    Image(#[from] DeserializeError),
    /// No rule matches at this place of the source.
    #[error("no rule matches at byte {0}")]
    Stuck(usize),
    /// The table gave up at a quit byte, or has no anchored starts.
    #[error("the table can't scan this source")]
    GaveUp,
    /// Memory ran out, or an input or an output failed.
    #[error("{0}")]
    Io(#[from] io::Error),
}

/// Writes the line of a token.
fn tell<W: Write>(out: &mut W, source: &[u8], token: &Token) -> io::Result<()> {
    let rule = token.pattern.as_usize();
    if rule < SILENT {
        return Ok(());
    }
    let kind = KINDS.get(rule).copied().unwrap_or("other");
    write!(out, "{}:{} {kind} ", token.line, token.column)?;
    let text = source.get(token.span.start..token.span.end);
    out.write_all(text.unwrap_or(b""))?;
    out.write_all(b"\n")
}

/// Writes the tokens of a source.
fn tell_tokens<W: Write>(out: &mut W, table: &DFA<&[u8]>, source: &[u8]) -> Result<(), Fault>
    requires { IsSoundLayout table.now.layout }
{
    let mut scanner = Scanner::new(table, source);
    for token in &mut scanner {
        tell(out, source, &token)?;
    }
    match scanner.end() {
        Some(ScanEnd::Stuck { offset }) => Err(Fault::Stuck(offset)),
        Some(ScanEnd::Quit { .. }) | Some(ScanEnd::Unsupported) => Err(Fault::GaveUp),
        Some(ScanEnd::Done) | None => Ok(()),
    }
}

/// Reads the image and the source, and writes the tokens.
fn run(rt: &HostRuntime) -> Result<(), Fault> {
    let path = env::args(rt)?.nth(2).ok_or(Fault::Usage)?;
    let image = fs::read(rt, path.as_str())?;
    let mut source = Vec::new(rt.alloc());
    rt.reader().read_to_end(&mut source)?;
    let mut out = BufWriter::new(rt.alloc(), io::writer(rt))?;
    match DFA::<&[u8]>::from_bytes(rt.alloc(), &image) {
        Ok((table, _)) => tell_tokens(&mut out, &table, &source)?,
        Err(error) => return Err(Fault::Image(error)),
    }
    out.flush()?;
    Ok(())
}

/// Runs the program.
pub(crate) fn main(rt: &HostRuntime) -> ExitCode {
    match run(rt) {
        Ok(()) => ExitCode::SUCCESS,
        Err(fault) => {
            let _ = eprintln!(rt; "{fault}");
            match fault {
                Fault::Stuck(_) => ExitCode::FAILURE,
                Fault::Io(_) => ExitCode::from(3),
                _ => ExitCode::from(2),
            }
        }
    }
}
