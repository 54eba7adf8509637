//! The command `find`: the leftmost match of a script's patterns in its haystack.

ghost use Rattle.std.specs.Prelude.{◌≡◌, IfOk};
ghost use Rattle.std.specs.String.{string_bytes};
ghost use Rattle.rx_script.specs.Script.{script_read};
ghost use Rattle.rx_main.specs.Scripts.{AskedReplies, IsAsking};
ghost use Rattle.rx_main.specs.Find.{FindAnswers, FindReplies, found_line, found_status};
ghost use Rattle.rx_main.specs.Find.{found_reply, rows_text};

use crate::lines::{error_reply, push_match, push_rows, refusal_reply};
use crate::reply::{FOUND, NOT_FOUND, Reply};
use crate::scripts::{Reading, asked, read};
use rx_base::{Match, MatchError};
use rx_regex::{Answer, FindFault, compile_and_find};
use rx_script::Script;
use std::alloc::{AllocError, Global};

/// The reply to the bytes of a script.
pub fn find(alloc: Global, text: &[u8]) -> Result<Reply, AllocError>
    ensures { IfOk result (FindReplies text.now) }
{
    match read(alloc, text, true)? {
        Reading::Script(script) => solve(alloc, &script),
        Reading::TurnedDown(reply) => Ok(reply),
    }
}

/// The reply with what is found, or with the error of the build or the search.
fn solve(alloc: Global, script: &Script) -> Result<Reply, AllocError>
    requires { IsAsking (script_read script.now).asked }
    ensures { IfOk result (AskedReplies FindAnswers (script_read script.now)) }
{
    let input = asked(script);
    match compile_and_find(alloc, script.exprs.as_slice(), &script.plan, &input) {
        Ok(answer) => found_reply(alloc, &answer, script.rows),
        Err(FindFault::Build(error)) => refusal_reply(alloc, &error),
        Err(FindFault::Quit { byte, offset }) => {
            error_reply(String::new(alloc), &MatchError::quit(byte, offset))
        }
        Err(FindFault::Unsupported { mode }) => {
            error_reply(String::new(alloc), &MatchError::unsupported_anchored(mode))
        }
        Err(FindFault::Memory) => Err(AllocError),
    }
}

/// The reply of a search without an error.
fn found_reply(alloc: Global, answer: &Answer, rows: bool) -> Result<Reply, AllocError>
    ensures { IfOk result (λ reply. reply
        ≡ found_reply answer.now.found (rows_text rows answer.now.forward_rows answer.now.reverse_rows)) }
{
    let mut text = found_line(alloc, answer.found)?;
    if rows {
        push_rows(&mut text, answer.forward_rows, answer.reverse_rows)?;
    }
    Ok(Reply::new(text, found_status(answer.found)))
}

/// The line for a match, or for none.
pub fn found_line(alloc: Global, found: Option<Match>) -> Result<String, AllocError>
    ensures { IfOk result (λ text. string_bytes text ≡ found_line found) }
{
    let mut text = String::new(alloc);
    match found {
        Some(found) => push_match(&mut text, &found)?,
        None => text.push_str("none\n")?,
    }
    Ok(text)
}

/// The status for a match, or for none.
pub fn found_status(found: Option<Match>) -> u8
    ensures { result ≡ found_status found }
{
    match found {
        Some(_) => FOUND,
        None => NOT_FOUND,
    }
}
