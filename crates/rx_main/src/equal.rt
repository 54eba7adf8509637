//! The command `equal`: whether the tables of two images mean the same.

ghost use Rattle.std.specs.Prelude.{◌≡◌, ◌++◌, IfOk, Ok, OnOk, map};
ghost use Rattle.std.specs.String.{string_bytes};
ghost use Rattle.rx_base.specs.Search.{mode_of};
ghost use Rattle.rx_base.specs.Unit.{unit_number};
ghost use Rattle.rx_feed.specs.Replies.{table_read};
ghost use Rattle.rx_transfer.specs.Words.{mode_name};
ghost use Rattle.rx_main.specs.Equal.{CompareReplies, EqualReplies, ImagesReply};
ghost use Rattle.rx_main.specs.EqualLines.{beside_text, differ_line, differ_reply, equal_reply, hex_text, unit_text};
ghost use Rattle.rx_main.specs.EqualLines.{word_text};

use crate::check::failed_test_reply;
use crate::command::Equal;
use crate::lines::{fixed_reply, hex_digit};
use crate::reply::{FOUND, NOT_FOUND, Reply, TURNED_DOWN};
use crate::search::parts;
use rx_base::{Anchored, Unit};
use rx_dense::OwnedDFA;
use rx_equal::{Parting, UnitList, Verdict, compare};
use rx_image::{DenseRead, SparseRead};
use rx_regex::Form;
use rx_search::Automaton;
use rx_sparse::DFA as SparseDFA;
use std::alloc::{AllocError, Global};
use std::fmt::Write;

/// The most patterns of a table that is compared.
const MOST_COMPARED: usize = 65_536;

/// The reply to the images of two tables, one after the other.
pub fn equal(alloc: Global, asked: &Equal, bytes: &[u8]) -> Result<Reply, AllocError>
    ensures { IfOk result (EqualReplies asked.now bytes.now) }
{
    let (image, other) = parts(asked.image_len, bytes);
    match asked.form {
        Form::Dense => match OwnedDFA::from_bytes(alloc, image) {
            Ok((table, _)) => second_reply(alloc, &table, asked.other, other),
            Err(error) => failed_test_reply(alloc, error.kind()),
        },
        Form::Sparse => match SparseDFA::<&[u8]>::from_bytes(alloc, image) {
            Ok((table, _)) => second_reply(alloc, &table, asked.other, other),
            Err(error) => failed_test_reply(alloc, error.kind()),
        },
    }
}

/// The reply to a table and the image of another.
fn second_reply<A: Automaton>(
    alloc: Global,
    table: &A,
    form: Form,
    image: &[u8],
) -> Result<Reply, AllocError>
    requires { A.IsSound table.now }
    ensures { IfOk result (ImagesReply (Ok (A.table table.now)) (table_read form image.now)) }
{
    match form {
        Form::Dense => match OwnedDFA::from_bytes(alloc, image) {
            Ok((other, _)) => compare_reply(alloc, table, &other),
            Err(error) => failed_test_reply(alloc, error.kind()),
        },
        Form::Sparse => match SparseDFA::<&[u8]>::from_bytes(alloc, image) {
            Ok((other, _)) => compare_reply(alloc, table, &other),
            Err(error) => failed_test_reply(alloc, error.kind()),
        },
    }
}

/// The reply to two tables.
fn compare_reply<A: Automaton, B: Automaton>(
    alloc: Global,
    a: &A,
    b: &B,
) -> Result<Reply, AllocError>
    requires sound { A.IsSound a.now }
    requires other_sound { B.IsSound b.now }
    ensures { IfOk result (CompareReplies (A.table a.now) (B.table b.now)) }
{
    if a.pattern_len().max(b.pattern_len()) > MOST_COMPARED {
        return fixed_reply(alloc, "wide\n", TURNED_DOWN);
    }
    match compare(alloc, a, b)? {
        Verdict::Equal(links) => equal_reply(alloc, links.len()),
        Verdict::Differ(parting) => differ_reply(alloc, &parting),
    }
}

/// The reply for tables that mean the same. `count` is the number of reached pairs of rows.
fn equal_reply(alloc: Global, count: usize) -> Result<Reply, AllocError>
    ensures { IfOk result (λ reply. reply ≡ equal_reply count) }
{
    let text = format!(in alloc; "equal {count}\n")?;
    Ok(Reply::new(text, FOUND))
}

/// The reply for tables that differ, with a place and a word at which they differ.
fn differ_reply(alloc: Global, parting: &Parting) -> Result<Reply, AllocError>
    ensures { IfOk result
        (λ reply. reply ≡ differ_reply parting.now.place (map unit_number parting.now.word)) }
{
    let line = differ_line(alloc, parting)?;
    Ok(Reply::new(line, NOT_FOUND))
}

/// The line of a place and a word.
fn differ_line(alloc: Global, parting: &Parting) -> Result<String, AllocError>
    ensures { IfOk result
        (λ line. string_bytes line ≡ differ_line parting.now.place (map unit_number parting.now.word)) }
{
    let mut line = String::from_str(alloc, "differ ")?;
    push_mode(&mut line, &parting.place.mode())?;
    write!(line, " ")?;
    push_beside(&mut line, parting.place.behind())?;
    write!(line, " ")?;
    push_word(&mut line, &parting.word)?;
    writeln!(line)?;
    Ok(line)
}

/// Adds a mode.
fn push_mode(text: &mut String, mode: &Anchored) -> Result<(), AllocError>
    ensures { OnOk result (string_bytes text.new ≡ string_bytes text.old ++ mode_name (mode_of mode.now)) }
{
    match *mode {
        Anchored::No => write!(text, "no"),
        Anchored::Yes => write!(text, "yes"),
        Anchored::Pattern(pattern) => {
            let pattern = pattern.as_u32();
            write!(text, "p{pattern}")
        }
    }
}

/// Adds the byte beside the start, if there is one.
fn push_beside(text: &mut String, beside: Option<u8>) -> Result<(), AllocError>
    ensures { OnOk result (string_bytes text.new ≡ string_bytes text.old ++ beside_text beside) }
{
    match beside {
        Some(byte) => push_hex(text, byte),
        None => write!(text, "-"),
    }
}

/// Adds a word.
fn push_word(text: &mut String, word: &UnitList) -> Result<(), AllocError>
    ensures { OnOk result (string_bytes text.new ≡ string_bytes text.old ++ word_text (map unit_number word.now)) }
{
    if word.len() == 0 {
        return write!(text, "-");
    }
    push_unit(text, word.get(0))?;
    'units: for i in 1..word.len() {
        write!(text, ",")?;
        push_unit(text, word.get(i))?;
    }
    Ok(())
}

/// Adds a byte, or the end of input.
fn push_unit(text: &mut String, unit: Unit) -> Result<(), AllocError>
    ensures { OnOk result (string_bytes text.new ≡ string_bytes text.old ++ unit_text (unit_number unit)) }
{
    match unit {
        Unit::Byte(byte) => push_hex(text, byte),
        Unit::Eoi => write!(text, "eoi"),
    }
}

/// Adds a byte as two hexadecimal digits.
fn push_hex(text: &mut String, byte: u8) -> Result<(), AllocError>
    ensures { OnOk result (string_bytes text.new ≡ string_bytes text.old ++ hex_text byte) }
{
    let high = hex_digit(byte / 16);
    let low = hex_digit(byte % 16);
    write!(text, "{high}{low}")
}
