//! The command `search`: the leftmost match in the text after the image of a pair.

ghost use Rattle.std.specs.Prelude.{◌≡◌, IfOk, drop, take};
ghost use Rattle.rx_spec.specs.Joining.{join};
ghost use Rattle.rx_spec.specs.Queries.{IsFit};
ghost use Rattle.rx_base.specs.Input.{query_of};
ghost use Rattle.rx_image.specs.Tables.{AreSound, pair_of};
ghost use Rattle.rx_regex.specs.Pairs.{joined};
ghost use Rattle.rx_main.specs.Search.{SearchReplies, answer_reply, asked, pair_reply};

use crate::check::failed_test_reply;
use crate::command::Search;
use crate::find::{found_line, found_status};
use crate::lines::{error_reply, fixed_reply};
use crate::reply::{Reply, TURNED_DOWN};
use rx_base::Input;
use rx_image::{Tables, read_pair};
use rx_prefilter::{Answer, try_search};
use rx_regex::Regex;
use rx_search::Automaton;
use std::alloc::{AllocError, Global};

/// The reply to the image of a pair and the haystack after it.
pub fn search(alloc: Global, search: &Search, bytes: &[u8]) -> Result<Reply, AllocError>
    ensures { IfOk result (SearchReplies search.now bytes.now) }
{
    let (image, haystack) = parts(search.image_len, bytes);
    match read_pair(alloc, image) {
        Ok((tables, _)) => pair_reply(alloc, &tables, search, haystack),
        Err(error) => failed_test_reply(alloc, error.kind()),
    }
}

/// The bytes of the image and those after it.
pub fn parts(image_len: u32, bytes: &[u8]) -> (&[u8], &[u8])
    ensures image { result.0.now ≡ take image_len bytes.now }
    ensures behind { result.1.now ≡ drop image_len bytes.now }
{
    let len = bytes.len().min(image_len as usize);
    bytes.split_at(len)
}

/// The reply of a search with two tables, if the span fits.
fn pair_reply(
    alloc: Global,
    tables: &Tables<'_>,
    search: &Search,
    haystack: &[u8],
) -> Result<Reply, AllocError>
    requires { AreSound tables.now }
    ensures { IfOk result (λ reply. reply ≡ pair_reply (pair_of tables.now) (asked search.now haystack.now)) }
{
    let (start, end) = (search.start as usize, search.end as usize);
    if !Input::fits(haystack.len(), start, end) {
        return fixed_reply(alloc, "span\n", TURNED_DOWN);
    }
    let input = Input::new(haystack).range(start, end).anchored(search.mode);
    let answer = joined(alloc, tables, &input)?;
    answer_reply(alloc, answer)
}

/// What a search with the tables of an image gives.
fn joined(alloc: Global, tables: &Tables<'_>, input: &Input<'_>) -> Result<Answer, AllocError>
    requires sound { AreSound tables.now }
    requires fits { IsFit (query_of input.now) }
    ensures { IfOk result (λ answer. answer ≡ joined (pair_of tables.now) (query_of input.now)) }
{
    match tables {
        Tables::Dense(forward, reverse) => joined_by(alloc, forward, reverse, input),
        Tables::Sparse(forward, reverse) => joined_by(alloc, forward, reverse, input),
    }
}

/// What a search with two tables gives.
fn joined_by<A: Automaton>(
    alloc: Global,
    forward: &A,
    reverse: &A,
    input: &Input<'_>,
) -> Result<Answer, AllocError>
    requires forward { A.IsSound forward.now }
    requires reverse { A.IsSound reverse.now }
    requires fits { IsFit (query_of input.now) }
    ensures { IfOk result (λ answer. answer
        ≡ join (A.table forward.now) (A.table reverse.now) (query_of input.now)) }
{
    try_search(alloc, &Regex::new(forward, reverse), input)
}

/// The reply of a search: a match, none, or its error.
pub fn answer_reply(alloc: Global, answer: Answer) -> Result<Reply, AllocError>
    ensures { IfOk result (λ reply. reply ≡ answer_reply answer) }
{
    match answer {
        Ok(found) => Ok(Reply::new(found_line(alloc, found)?, found_status(found))),
        Err(error) => error_reply(String::new(alloc), &error),
    }
}
