//! A router: prints for each path on standard input which routes match it whole.
//!
//! `example_programs router IMAGE`: the routes are in `data/routes.patterns`. `examples/script` and `image all le`
//! built their table once, as the image `data/routes.image`. One walk over a path finds all routes that match, however
//! many there are.
//!
//! Each path is a line: the path, and the names of its routes. The status is 2 for wrong words, a file that isn't such
//! an image or a search that gave up, and 3 if memory, an input or an output failed.

ghost use Rattle.rx_dense.specs.Facts.{IsSoundLayout};

use rx_base::{Anchored, Input, MatchError, PatternID, PatternSet};
use rx_dense::{DFA, OwnedDFA};
use rx_image::DenseRead;
use rx_search::Automaton;
use rx_wire::DeserializeError;
use std::alloc::AllocError;
use std::io::{self, BufWriter, Write};
use std::process::ExitCode;
use std::{env, fs};
use thiserror::Error;

/// The names of the routes, one for each pattern.
const ROUTES: [&str; 6] = ["home", "users", "user", "posts", "post", "file"];

/// Why paths weren't routed.
#[derive(Debug, Drop, Error)]
enum Fault {
    /// The words are wrong.
    #[error("usage: example_programs router IMAGE < PATHS")]
    Usage,
    /// The file isn't the image of a dense table.
    #[error("{0}")]
    Image(#[from] DeserializeError),
    /// A search read a quit byte, or the table has no anchored start states.
    #[error("{0}")]
    Search(#[from] MatchError),
    /// Memory ran out, or an input or an output failed.
    #[error("{0}")]
    Io(#[from] io::Error),
}

impl From<AllocError> for Fault {
    fn from(error: AllocError) -> Fault {
        Fault::Io(io::Error::from(error))
    }
}

/// Writes a path and the names of the routes in a set.
fn tell<W: Write>(out: &mut W, path: &str, matched: &PatternSet) -> io::Result<()> {
    write!(out, "{path}:")?;
    for (number, name) in ROUTES.iter().enumerate() {
        if let Ok(pattern) = PatternID::new(number) {
            if number < matched.capacity() && matched.contains(pattern) {
                write!(out, " {name}")?;
            }
        }
    }
    out.write_all(b"\n")
}

/// Prints the routes of each path.
fn route(rt: &HostRuntime, table: &OwnedDFA) -> Result<(), Fault>
    requires { IsSoundLayout table.now }
{
    let mut out = BufWriter::new(rt.alloc(), io::writer(rt))?;
    for path in rt.lines(rt.alloc()) {
        let path = path?;
        let mut matched = PatternSet::new(rt.alloc(), table.pattern_len())?;
        let input = Input::new(path.as_bytes()).anchored(Anchored::Yes);
        table.try_which_overlapping_matches(&input, &mut matched)?;
        tell(&mut out, path.as_str(), &matched)?;
    }
    out.flush()?;
    Ok(())
}

/// Reads the image and routes the paths that come.
fn run(rt: &HostRuntime) -> Result<(), Fault> {
    let file = env::args(rt)?.nth(2).ok_or(Fault::Usage)?;
    let image = fs::read(rt, file.as_str())?;
    let (table, _) = DFA::<Vec<u32>>::from_bytes(rt.alloc(), &image)?;
    route(rt, &table)
}

/// Runs the program.
pub(crate) fn main(rt: &HostRuntime) -> ExitCode {
    match run(rt) {
        Ok(()) => ExitCode::SUCCESS,
        Err(fault) => {
            let _ = eprintln!(rt; "{fault}");
            match fault {
                Fault::Io(_) => ExitCode::from(3),
                _ => ExitCode::from(2),
            }
        }
    }
}
