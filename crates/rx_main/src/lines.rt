//! The lines of the replies, and the replies of one line.

ghost use Rattle.std.specs.Prelude.{◌≡◌, ◌++◌, ◌<◌, ◌≤◌, IfOk, OnOk};
ghost use Rattle.std.specs.String.{string_bytes};
ghost use Rattle.rx_transfer.specs.Words.{hex_code};
ghost use Rattle.rx_main.specs.Lines.{TellsKind, match_line, rows_line, error_line};
ghost use Rattle.rx_main.specs.Lines.{usage_reply, long_reply, fault_reply, error_reply};

use crate::reply::{FAILED, REFUSED, Reply, TURNED_DOWN};
use rx_base::{Anchored, Match, MatchError, MatchErrorKind};
use rx_regex::{BuildError, BuildErrorKind};
use rx_script::BadKind;
use std::alloc::{AllocError, Global};
use std::fmt::Write;

/// The reply to words that aren't a command.
pub fn usage_reply(alloc: Global) -> Result<Reply, AllocError>
    ensures { IfOk result (λ reply. reply ≡ usage_reply) }
{
    fixed_reply(alloc, "usage\n", TURNED_DOWN)
}

/// The reply to a source that has too many bytes.
pub fn long_reply(alloc: Global) -> Result<Reply, AllocError>
    ensures { IfOk result (λ reply. reply ≡ long_reply) }
{
    fixed_reply(alloc, "long\n", TURNED_DOWN)
}

/// The reply to a script with a fault: its line and its kind.
pub fn fault_reply(alloc: Global, line: u64, kind: BadKind) -> Result<Reply, AllocError>
    ensures { IfOk result (λ reply. reply ≡ fault_reply line kind) }
{
    let text = format!(in alloc; "bad {line} {kind}\n")?;
    Ok(Reply::new(text, TURNED_DOWN))
}

/// The reply to a build that is refused.
pub fn refusal_reply(alloc: Global, error: &BuildError) -> Result<Reply, AllocError>
    ensures { IfOk result (TellsKind error.now.kind) }
{
    match error.kind() {
        BuildErrorKind::NFA(_) => fixed_reply(alloc, "build nfa\n", REFUSED),
        BuildErrorKind::Unsupported => fixed_reply(alloc, "build unsupported\n", REFUSED),
        BuildErrorKind::TooManyStates => fixed_reply(alloc, "build states\n", REFUSED),
        BuildErrorKind::TooManyMatchPatternIDs => fixed_reply(alloc, "build matches\n", REFUSED),
        BuildErrorKind::DFAExceededSizeLimit { .. } => fixed_reply(
            alloc,
            "build dfa-size\n",
            REFUSED,
        ),
        BuildErrorKind::DeterminizeExceededSizeLimit { .. } => {
            fixed_reply(alloc, "build det-size\n", REFUSED)
        }
        BuildErrorKind::Memory => Err(AllocError),
    }
}

/// The reply of a search that ends with an error, after the lines of the matches before it.
pub fn error_reply(lines: String, error: &MatchError) -> Result<Reply, AllocError>
    ensures { IfOk result (λ reply. reply ≡ error_reply (string_bytes lines) error.now) }
{
    let mut text = lines;
    push_error(&mut text, error)?;
    Ok(Reply::new(text, FAILED))
}

/// A reply of one line.
pub fn fixed_reply(alloc: Global, text: &str, status: u8) -> Result<Reply, AllocError>
    requires { status ≤ 4 }
    ensures { IfOk result (λ reply. reply ≡ record { text = text.now; status = status }) }
{
    Ok(Reply::new(String::from_str(alloc, text)?, status))
}

/// Adds the line of a match.
pub fn push_match(text: &mut String, found: &Match) -> Result<(), AllocError>
    ensures { OnOk result (string_bytes text.new ≡ string_bytes text.old ++ match_line found.now) }
{
    let pattern = found.pattern().as_u32();
    let start = found.start();
    let end = found.end();
    writeln!(text, "match {pattern} {start} {end}")
}

/// Adds the line with the numbers of rows.
pub fn push_rows(text: &mut String, forward: u64, reverse: u64) -> Result<(), AllocError>
    ensures { OnOk result (string_bytes text.new ≡ string_bytes text.old ++ rows_line forward reverse) }
{
    writeln!(text, "rows {forward} {reverse}")
}

/// Adds the line of an error.
fn push_error(text: &mut String, error: &MatchError) -> Result<(), AllocError>
    ensures { OnOk result (string_bytes text.new ≡ string_bytes text.old ++ error_line error.now) }
{
    match *error.kind() {
        MatchErrorKind::Quit { byte, offset } => {
            let high = hex_digit(byte / 16);
            let low = hex_digit(byte % 16);
            writeln!(text, "quit {high}{low} {offset}")
        }
        MatchErrorKind::UnsupportedAnchored { mode } => match mode {
            Anchored::No => writeln!(text, "unsupported no"),
            Anchored::Yes => writeln!(text, "unsupported yes"),
            Anchored::Pattern(pattern) => {
                let pattern = pattern.as_u32();
                writeln!(text, "unsupported p{pattern}")
            }
        },
        MatchErrorKind::PairMismatch { .. } => writeln!(text, "mismatch"),
    }
}

/// A lower-case hexadecimal digit.
pub fn hex_digit(digit: u8) -> char
    requires { digit < 16 }
    ensures { result ≡ hex_code digit }
{
    if digit < 10 {
        (b'0' + digit) as char
    } else {
        (b'a' + digit - 10) as char
    }
}
