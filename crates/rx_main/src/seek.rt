//! The command `search` where the image searches for one literal: its text is read, and not kept.

ghost use Rattle.std.specs.Prelude.{◌≡◌, ◌≤◌, ◌+◌, ◌++◌, ℕ, List, [], length, option_map, IfOk, IfSome, Ok, Err, None};
ghost use Rattle.std.specs.Io.KnownBytes.{Consumes, IsAtEnd};
ghost use Rattle.rx_spec.specs.Queries.{Anchored as Mode};
ghost use Rattle.rx_base.specs.Outside.{Rose};
ghost use Rattle.rx_base.specs.Search.{mode_of};
ghost use Rattle.rx_main.specs.Search.{SearchReplies};
ghost use Rattle.rx_prefilter.specs.OnlyLiterals.{literal_match};
ghost use Rattle.rx_prefilter.specs.Seeking.{IsSought};
ghost use Rattle.rx_main.specs.Replies.{ReadReplies};
ghost use Rattle.rx_main.specs.Seek.{IsLiteralImage};

use crate::command::{ReadCommand, Search};
use crate::lines::fixed_reply;
use crate::reply::{Reply, TURNED_DOWN};
use crate::search::answer_reply;
use crate::transfer::LIMIT;
use rx_base::{Input, Match, Source, Span};
use rx_image::{Tables, read_pair};
use rx_prefilter::seek::{Sought, seek};
use rx_prefilter::{OnlyLiteral, only_literal};
use rx_regex::Regex;
use rx_transfer::{TextFault, read_up_to};
use std::alloc::{AllocError, Global};

/// The longest image, in bytes, of which the program asks whether it searches for one literal. One of a literal of 32
/// bytes is shorter.
const LONGEST: usize = 1 << 18;

/// The reply, if the command is `search` and its image searches for one literal. Otherwise `None`, and what was read is
/// in the text.
pub fn seek_reply<S: Source>(
    alloc: Global,
    command: ReadCommand,
    src: &mut S,
    buffer: &mut [u8],
    text: &mut Vec<u8>,
) -> Result<Option<Reply>, TextFault>
    requires empty { text.old.items ≡ [] }
    requires room { length buffer.old ≡ 65536 }
    ensures replied { IfOk result (λ replied. IfSome replied (λ reply. (bytes : List ℕ)
        × Consumes (S.left src.old) (S.left src.new) bytes × (length bytes ≤ 16777216)
        × ReadReplies command bytes reply)) }
    ensures end { IfOk result (λ replied. IfSome replied (λ reply. IsAtEnd (S.left src.new))) }
    ensures read { result ≡ Ok None → Consumes (S.left src.old) (S.left src.new) text.new.items }
    ensures few { result ≡ Ok None → length text.new.items ≤ 16777216 }
    ensures long { result ≡ Err TextFault.Long
        → (bytes : List ℕ) × (length bytes ≡ 16777217) × Consumes (S.left src.old) (S.left src.new) bytes }
    ensures failed { result ≡ Err TextFault.Failed → Rose (S.faults src.old) (S.faults src.new) }
    ensures counted { S.faults src.old ≤ S.faults src.new }
    // The buffer keeps its length.
    ensures buffer { length buffer.new ≡ length buffer.old }
{
    let ReadCommand::Search(search) = command else {
        return Ok(None);
    };
    let len = search.image_len as usize;
    if len > LONGEST || search.mode.is_anchored() || read_up_to(src, buffer, text, len)? {
        return Ok(None);
    }
    let Some(literal) = literal_of(alloc, text)? else {
        return Ok(None);
    };
    let span = Span {
        start: search.start as usize,
        end: search.end as usize,
    };
    let sought = seek(alloc, src, &literal.bytes, &span, LIMIT - len)?;
    Ok(Some(sought_reply(alloc, &search, &literal, &sought)?))
}

/// The literal for which the tables of an image search, if they search for one literal and for nothing else.
pub fn literal_of(alloc: Global, image: &[u8]) -> Result<Option<OnlyLiteral>, AllocError>
    ensures { IfOk result (λ found. IfSome found (λ only. IsLiteralImage image.now only.bytes.items only.pattern)) }
{
    match read_pair(alloc, image) {
        Ok((Tables::Dense(forward, reverse), _)) => {
            only_literal(alloc, &Regex::new(forward, reverse))
        }
        Ok((Tables::Sparse(forward, reverse), _)) => {
            only_literal(alloc, &Regex::new(forward, reverse))
        }
        Err(_) => Ok(None),
    }
}

/// The reply of a search for a literal, by what was read of the haystack.
pub fn sought_reply(
    alloc: Global,
    search: &Search,
    literal: &OnlyLiteral,
    sought: &Sought,
) -> Result<Reply, AllocError>
    requires sought { (text : List ℕ)
        × IsSought text literal.now.bytes.items search.now.start search.now.end sought.now.len sought.now.place }
    requires few { sought.now.len ≤ 16777216 }
    ensures { IfOk result (λ reply. (image text : List ℕ) → length image ≡ search.now.image_len
        → mode_of search.now.mode ≡ Mode.No → IsLiteralImage image literal.now.bytes.items literal.now.pattern
        → IsSought text literal.now.bytes.items search.now.start search.now.end sought.now.len sought.now.place
        → SearchReplies search.now (image ++ text) reply) }
{
    if !Input::fits(sought.len, search.start as usize, search.end as usize) {
        return fixed_reply(alloc, "span\n", TURNED_DOWN);
    }
    answer_reply(alloc, Ok(match_at(literal, sought.place)))
}

/// The match of a literal at a place.
fn match_at(literal: &OnlyLiteral, place: Option<usize>) -> Option<Match>
    requires { IfSome place (λ start. start + length literal.now.bytes.items ≤ 16777216) }
    ensures { result
        ≡ option_map (literal_match literal.now.pattern (length literal.now.bytes.items)) place }
{
    match place {
        Some(start) => {
            let end = start + literal.bytes.len();
            Some(Match::new(literal.pattern, Span { start, end }))
        }
        None => None,
    }
}
