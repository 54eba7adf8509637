//! Command lines.

ghost use Rattle.std.specs.Prelude.{◌≡◌, ◌≢◌, ◌≤◌, ◌↔◌, IsTrue, MatchOption, ℕ, [], ◌∷◌};
ghost use Rattle.std.specs.Fmt.{decimal};
ghost use Rattle.rx_spec.specs.declared.Form.{Form};
ghost use Rattle.rx_wire.specs.declared.order.Order.{Order};
ghost use Rattle.rx_base.specs.Search.{mode_of};
ghost use Rattle.rx_base.specs.declared.search.Anchored.{Anchored as Mode};
ghost use Rattle.rx_regex.specs.declared.plan_table.PlanTable.{PlanTable as Table};
ghost use Rattle.rx_transfer.specs.Words.{mode_name};
ghost use Rattle.rx_main.specs.Commands.{IsMode, Says, SaysNothing, form_word, order_word, table_word};

use crate::words::Words;
use rx_base::Anchored;
use rx_regex::{Form, PlanTable};
use rx_script::{mode, number};
use rx_wire::Order;

/// What a command line asks for.
#[derive(Clone, Copy)]
pub enum Command {
    /// A command that reads all of the source before it replies.
    Read(ReadCommand),
    /// `gen`: the number of generated patterns, from 1 to 1000. Nothing is read.
    Gen(u16),
    /// `feed`: all matches of a text that follows an image. The text isn't kept.
    Feed(Feed),
}

/// A command that reads all of the source.
#[derive(Clone, Copy)]
pub enum ReadCommand {
    /// `find`: the leftmost match of a script's patterns in its haystack.
    Find,
    /// `each`: all matches, one after another.
    Each,
    /// `image`: the image of one table of a script's plan, in a byte order.
    Image(PlanTable, Order),
    /// `image pair`: one image of both tables of a script's plan, in a byte order.
    ImagePair(Order),
    /// `check`: whether the bytes are an image of a table of a form.
    Check(Form),
    /// `check pair`: whether they are an image of a pair.
    CheckPair,
    /// `search`: the leftmost match in the text after the image of a pair.
    Search(Search),
    /// `scan`: the tokens of the text after the image of a table of a form.
    Scan(Form),
    /// `equal`: whether the tables of two images mean the same.
    Equal(Equal),
}

/// The words of `search`.
#[derive(Clone, Copy)]
pub struct Search {
    /// Where the span starts.
    pub start: u32,
    /// Where the span ends.
    pub end: u32,
    /// The mode of the search.
    pub mode: Anchored,
    /// The length of the image in bytes, from 1 to 16,777,216. The haystack follows the image.
    pub image_len: u32,
}

/// The words of `equal`.
#[derive(Clone, Copy)]
pub struct Equal {
    /// The form of the first table.
    pub form: Form,
    /// The form of the second table.
    pub other: Form,
    /// The length of the first image in bytes, from 1 to 16,777,216. The second image follows it.
    pub image_len: u32,
}

/// The words of `feed`.
#[derive(Clone, Copy)]
pub struct Feed {
    /// The form of the table.
    pub form: Form,
    /// The mode of the search.
    pub mode: Anchored,
    /// The length of the image in bytes, from 1 to 16,777,216. The text follows the image.
    pub image_len: u32,
}

/// The greatest number of generated patterns.
const MOST_PATTERNS: u32 = 1000;

/// The most bytes that are read.
const MOST_BYTES: u32 = 16_777_216;

/// The command that the words are, or `None` if they are none.
pub fn command_of(words: &Words) -> Option<Command>
    ensures { MatchOption result (SaysNothing words.now) (Says words.now) }
{
    match words.len() {
        1 => single_word(words.word(0)),
        2 => two_words(words.word(0), words.word(1)),
        3 => three_words(words.word(0), words.word(1), words.word(2)),
        4 => four_words(words.word(0), words.word(1), words.word(2), words.word(3)),
        5 => search_of(
            words.word(0),
            words.word(1),
            words.word(2),
            words.word(3),
            words.word(4),
        ),
        _ => None,
    }
}

fn single_word(word: &[u8]) -> Option<Command>
    ensures { MatchOption result (SaysNothing (word.now ∷ [])) (Says (word.now ∷ [])) }
{
    if is(word, b"find") {
        return Some(Command::Read(ReadCommand::Find));
    }
    if is(word, b"each") {
        return Some(Command::Read(ReadCommand::Each));
    }
    None
}

fn two_words(word: &[u8], other: &[u8]) -> Option<Command>
    ensures { MatchOption result (SaysNothing (word.now ∷ (other.now ∷ []))) (Says (word.now ∷ (other.now ∷ []))) }
{
    if is(word, b"check") {
        if is(other, b"pair") {
            return Some(Command::Read(ReadCommand::CheckPair));
        }
        let form = form_of(other)?;
        return Some(Command::Read(ReadCommand::Check(form)));
    }
    if is(word, b"scan") {
        let form = form_of(other)?;
        return Some(Command::Read(ReadCommand::Scan(form)));
    }
    if !is(word, b"gen") {
        return None;
    }
    let count = number_of(other, 1, MOST_PATTERNS)?;
    Some(Command::Gen(count as u16))
}

fn three_words(word: &[u8], table: &[u8], order: &[u8]) -> Option<Command>
    ensures { MatchOption result (SaysNothing (word.now ∷ (table.now ∷ (order.now ∷ []))))
        (Says (word.now ∷ (table.now ∷ (order.now ∷ [])))) }
{
    if !is(word, b"image") {
        return None;
    }
    let order = order_of(order)?;
    if is(table, b"pair") {
        return Some(Command::Read(ReadCommand::ImagePair(order)));
    }
    let table = table_of(table)?;
    Some(Command::Read(ReadCommand::Image(table, order)))
}

fn four_words(word: &[u8], form: &[u8], other: &[u8], image_len: &[u8]) -> Option<Command>
    ensures { MatchOption result (SaysNothing (word.now ∷ (form.now ∷ (other.now ∷ (image_len.now ∷ [])))))
        (Says (word.now ∷ (form.now ∷ (other.now ∷ (image_len.now ∷ []))))) }
{
    if is(word, b"equal") {
        let equal = Equal {
            form: form_of(form)?,
            other: form_of(other)?,
            image_len: number_of(image_len, 1, MOST_BYTES)?,
        };
        return Some(Command::Read(ReadCommand::Equal(equal)));
    }
    if !is(word, b"feed") {
        return None;
    }
    let feed = Feed {
        form: form_of(form)?,
        mode: mode_of(other)?,
        image_len: number_of(image_len, 1, MOST_BYTES)?,
    };
    Some(Command::Feed(feed))
}

fn search_of(
    word: &[u8],
    start: &[u8],
    end: &[u8],
    mode: &[u8],
    image_len: &[u8],
) -> Option<Command>
    ensures { MatchOption result
        (SaysNothing (word.now ∷ (start.now ∷ (end.now ∷ (mode.now ∷ (image_len.now ∷ []))))))
        (Says (word.now ∷ (start.now ∷ (end.now ∷ (mode.now ∷ (image_len.now ∷ [])))))) }
{
    if !is(word, b"search") {
        return None;
    }
    let search = Search {
        start: number_of(start, 0, u32::MAX)?,
        end: number_of(end, 0, u32::MAX)?,
        mode: mode_of(mode)?,
        image_len: number_of(image_len, 1, MOST_BYTES)?,
    };
    Some(Command::Read(ReadCommand::Search(search)))
}

fn form_of(word: &[u8]) -> Option<Form>
    ensures { MatchOption result ((form : Form) → word.now ≢ form_word form)
        (λ form. word.now ≡ form_word form) }
{
    if is(word, b"dense") {
        return Some(Form::Dense);
    }
    if is(word, b"sparse") {
        return Some(Form::Sparse);
    }
    None
}

fn table_of(word: &[u8]) -> Option<PlanTable>
    ensures { MatchOption result ((table : Table) → word.now ≢ table_word table)
        (λ table. word.now ≡ table_word table) }
{
    if is(word, b"fwd") {
        return Some(PlanTable::Forward);
    }
    if is(word, b"rev") {
        return Some(PlanTable::Reverse);
    }
    if is(word, b"all") {
        return Some(PlanTable::All);
    }
    None
}

fn order_of(word: &[u8]) -> Option<Order>
    ensures { MatchOption result ((order : Order) → word.now ≢ order_word order)
        (λ order. word.now ≡ order_word order) }
{
    if is(word, b"le") {
        return Some(Order::Little);
    }
    if is(word, b"be") {
        return Some(Order::Big);
    }
    None
}

/// Whether a word is this text.
fn is(word: &[u8], text: &[u8]) -> bool
    ensures { IsTrue result ↔ (word.now ≡ text.now) }
{
    word == text
}

/// The number that a word spells in decimal, without leading zeros, if it lies in the range.
fn number_of(word: &[u8], least: u32, most: u32) -> Option<u32>
    requires { most ≤ 4294967295 }
    ensures { MatchOption result
        ((n : ℕ) → least ≤ n → n ≤ most → word.now ≢ decimal n)
        (λ n. (least ≤ n) × (n ≤ most) × (word.now ≡ decimal n)) }
{
    match number(word) {
        Some(number) => within(number, least, most),
        None => None,
    }
}

/// The number if it lies in the range.
fn within(number: u32, least: u32, most: u32) -> Option<u32>
    ensures { MatchOption result ((least ≤ number) × (number ≤ most) → ⊥)
        (λ n. (n ≡ number) × (least ≤ n) × (n ≤ most)) }
{
    if number < least {
        return None;
    }
    if number > most {
        return None;
    }
    Some(number)
}

/// The mode that a word names.
fn mode_of(word: &[u8]) -> Option<Anchored>
    ensures { MatchOption result
        ((mode : Mode) → IsMode (mode_of mode) → word.now ≢ mode_name (mode_of mode))
        (λ mode. IsMode (mode_of mode) × (word.now ≡ mode_name (mode_of mode))) }
{
    mode(word)
}
