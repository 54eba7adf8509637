//! Reads the expressions of a script.
//!
//! The words are read from left to right into items: a leaf, or a form that needs parts. A count of the expressions
//! that are still to begin says where the words must end. Then expressions are made of the items from right to left,
//! over a stack of finished parts, so nothing recurses along the input.

ghost use Rattle.std.specs.Prelude.{◌≡◌, ◌+◌, ◌^◌, ◌<◌, ◌≤◌, ◌∷◌, [], ◌++◌, length, reverse, option_map, IfOk, IfErr};
ghost use Rattle.std.specs.Prelude.{OnOk, MatchOption};
ghost use Rattle.std.specs.Option.{option_to_list};
ghost use Rattle.rx_spec.specs.Expressions.{Expression};
ghost use Rattle.rx_expr.specs.Expr.{literal_of};
ghost use Rattle.rx_script.specs.declared.fault.BadKind.{BadKind};
ghost use Rattle.rx_script.specs.Pieces.{words_left};
ghost use Rattle.rx_script.specs.Faults.{Gives};
ghost use Rattle.rx_script.specs.Items.{take_head, take_word, is_whole, refusal_of, items_at, finished, made_onto};
ghost use Rattle.rx_script.specs.Items.{single_of, expression_at};

use crate::fault::{BadKind, ScriptFault};
use crate::names::{Head, greed_of, head_of, look_of};
use crate::pieces::next_word;
use crate::tokens::{bytes, most, number, set};
use rx_expr::{Expr, ExprError};
use std::alloc::Global;

/// A leaf, or a form that needs the parts after it.
#[derive(Drop)]
pub enum Item {
    Leaf(Expr),
    Concat,
    Alternate,
    Repeat {
        least: u32,
        most: Option<u32>,
        greedy: bool,
    },
}

/// What the next word must be.
#[derive(Clone, Copy)]
pub enum Awaited {
    /// The first word of an expression.
    Head,
    /// The bytes of a literal.
    Bytes,
    /// The set of a class.
    Set,
    /// The name of an assertion.
    Name,
    /// The least number of rounds of a repetition.
    Least,
    /// The greatest number of rounds, after the least.
    Most(u32),
    /// Whether it is greedy, after both numbers.
    Greed(u32, Option<u32>),
}

/// The result of reading a word.
#[derive(Drop)]
pub struct Taken {
    /// What the next word must be.
    pub awaited: Awaited,
    /// The number of expressions that are still to begin.
    pub missing: u64,
    /// The item that the word completes, if it completes one.
    pub item: Option<Item>,
}

fn bad(line: u64) -> ScriptFault
    ensures { result ≡ ScriptFault.Bad line BadKind.Expr }
{
    ScriptFault::Bad {
        line,
        kind: BadKind::Expr,
    }
}

#[tactic(auto, unfolding(crate::specs::Items::take_head))]
fn take_head(line: u64, missing: u64, word: &[u8]) -> Result<Taken, ScriptFault>
    requires { missing + 1 < 2 ^ 64 }
    ensures given { Gives (λ t. t) result (take_head line missing word.now) }
    ensures few { IfOk result (λ t. t.missing ≤ missing + 1) }
{
    if missing == 0 {
        return Err(bad(line));
    }
    let (awaited, missing, item) = match head_of(word) {
        Some(Head::Empty) => (Awaited::Head, missing - 1, Some(Item::Leaf(Expr::empty()))),
        Some(Head::Literal) => (Awaited::Bytes, missing - 1, None),
        Some(Head::Class) => (Awaited::Set, missing - 1, None),
        Some(Head::Look) => (Awaited::Name, missing - 1, None),
        Some(Head::Concat) => (Awaited::Head, missing + 1, Some(Item::Concat)),
        Some(Head::Alternate) => (Awaited::Head, missing + 1, Some(Item::Alternate)),
        Some(Head::Repeat) => (Awaited::Least, missing, None),
        None => return Err(bad(line)),
    };
    Ok(Taken {
        awaited,
        missing,
        item,
    })
}

fn leaf(missing: u64, expr: Expr) -> Taken
    ensures { result ≡ record { awaited = Awaited.Head; missing = missing; item = Some (Item.Leaf expr) } }
{
    Taken {
        awaited: Awaited::Head,
        missing,
        item: Some(Item::Leaf(expr)),
    }
}

fn awaiting(awaited: Awaited, missing: u64) -> Taken
    ensures { result ≡ record { awaited = awaited; missing = missing; item = None } }
{
    Taken {
        awaited,
        missing,
        item: None,
    }
}

/// The literal of these bytes.
fn literal(alloc: Global, bytes: &[u8]) -> Result<Expr, ScriptFault>
    ensures { Gives (λ e. e) result (Ok (literal_of bytes.now)) }
{
    match Expr::literal(alloc, bytes) {
        Ok(expr) => Ok(expr),
        Err(_) => Err(ScriptFault::Memory),
    }
}

#[tactic(auto, unfolding(crate::specs::Items::take_word))]
fn take_word(
    alloc: Global,
    line: u64,
    awaited: Awaited,
    missing: u64,
    word: &[u8],
) -> Result<Taken, ScriptFault>
    requires { missing + 1 < 2 ^ 64 }
    ensures given { Gives (λ t. t) result (take_word line awaited missing word.now) }
    ensures few { IfOk result (λ t. t.missing ≤ missing + 1) }
{
    match awaited {
        Awaited::Head => take_head(line, missing, word),
        Awaited::Bytes => {
            let bytes = bytes(alloc, word)?.ok_or(bad(line))?;
            Ok(leaf(missing, literal(alloc, &bytes)?))
        }
        Awaited::Set => {
            let set = set(word).ok_or(bad(line))?;
            Ok(leaf(missing, Expr::class(set)))
        }
        Awaited::Name => {
            let look = look_of(word).ok_or(bad(line))?;
            Ok(leaf(missing, Expr::look(look)))
        }
        Awaited::Least => {
            let least = number(word).ok_or(bad(line))?;
            Ok(awaiting(Awaited::Most(least), missing))
        }
        Awaited::Most(least) => {
            let most = most(word).ok_or(bad(line))?;
            Ok(awaiting(Awaited::Greed(least, most), missing))
        }
        Awaited::Greed(least, most) => {
            let greedy = greed_of(word).ok_or(bad(line))?;
            Ok(Taken {
                awaited: Awaited::Head,
                missing,
                item: Some(Item::Repeat {
                    least,
                    most,
                    greedy,
                }),
            })
        }
    }
}

/// Adds an item, if there is one.
fn keep(items: &mut Vec<Item>, item: Option<Item>) -> Result<(), ScriptFault>
    ensures ok { OnOk result (items.new.items ≡ items.old.items ++ option_to_list item) }
    ensures err { IfErr result (λ e. e ≡ ScriptFault.Memory) }
{
    if let Some(item) = item {
        items.push(item)?;
    }
    Ok(())
}

/// The items of the words, which must be exactly one expression.
fn items(alloc: Global, line: u64, words: Option<&[u8]>) -> Result<Vec<Item>, ScriptFault>
    ensures { Gives (λ v. v.items) result (items_at line Awaited.Head 1 (words_left words.entry)) }
{
    let mut items = Vec::new(alloc);
    let mut awaited = Awaited::Head;
    let mut missing = 1;
    let mut rest = words;
    'words: while let Some((word, after)) = next_word(rest) {
        let taken = take_word(alloc, line, awaited, missing, word)?;
        awaited = taken.awaited;
        missing = taken.missing;
        keep(&mut items, taken.item)?;
        rest = after;
    }
    if !is_whole(awaited, missing) {
        return Err(bad(line));
    }
    Ok(items)
}

fn is_whole(awaited: Awaited, missing: u64) -> bool
    ensures { result ≡ is_whole awaited missing }
{
    match awaited {
        Awaited::Head => missing == 0,
        _ => false,
    }
}

/// The fault for an error of a constructor.
fn refusal(line: u64, error: ExprError) -> ScriptFault
    ensures { result ≡ refusal_of line error }
{
    let kind = match error {
        ExprError::BadRange => BadKind::BadRange,
        ExprError::EmptyBody => BadKind::EmptyBody,
        ExprError::TooDeep => BadKind::TooDeep,
        ExprError::Memory => return ScriptFault::Memory,
    };
    ScriptFault::Bad { line, kind }
}

/// The two parts that were finished last, the last one first.
fn two(parts: &mut Vec<Expr>) -> Option<(Expr, Expr)>
    ensures { MatchOption result
        (length parts.old.items < 2)
        (λ p. reverse parts.old.items ≡ p.0 ∷ (p.1 ∷ reverse parts.new.items)) }
{
    let first = parts.pop()?;
    let second = parts.pop()?;
    Some((first, second))
}

fn concat(alloc: Global, line: u64, parts: &mut Vec<Expr>) -> Result<(), ScriptFault>
    ensures { Gives (λ _. reverse parts.new.items) result (finished line Item.Concat (reverse parts.old.items)) }
{
    let (first, second) = two(parts).ok_or(bad(line))?;
    match Expr::concat(alloc, first, second) {
        Ok(whole) => Ok(parts.push(whole)?),
        Err(error) => Err(refusal(line, error)),
    }
}

fn alternate(alloc: Global, line: u64, parts: &mut Vec<Expr>) -> Result<(), ScriptFault>
    ensures { Gives (λ _. reverse parts.new.items) result (finished line Item.Alternate (reverse parts.old.items)) }
{
    let (first, second) = two(parts).ok_or(bad(line))?;
    match Expr::alternate(alloc, first, second) {
        Ok(whole) => Ok(parts.push(whole)?),
        Err(error) => Err(refusal(line, error)),
    }
}

fn repeat(
    alloc: Global,
    line: u64,
    least: u32,
    most: Option<u32>,
    greedy: bool,
    parts: &mut Vec<Expr>,
) -> Result<(), ScriptFault>
    ensures { Gives (λ _. reverse parts.new.items) result
        (finished line (Item.Repeat least most greedy) (reverse parts.old.items)) }
{
    let body = parts.pop().ok_or(bad(line))?;
    match Expr::repeat(alloc, least, most, greedy, body) {
        Ok(whole) => Ok(parts.push(whole)?),
        Err(error) => Err(refusal(line, error)),
    }
}

/// Finishes an item: its parts are those that were finished last.
fn finish(alloc: Global, line: u64, item: Item, parts: &mut Vec<Expr>) -> Result<(), ScriptFault>
    ensures { Gives (λ _. reverse parts.new.items) result (finished line item (reverse parts.old.items)) }
{
    match item {
        Item::Leaf(expr) => Ok(parts.push(expr)?),
        Item::Concat => concat(alloc, line, parts),
        Item::Alternate => alternate(alloc, line, parts),
        Item::Repeat {
            least,
            most,
            greedy,
        } => repeat(alloc, line, least, most, greedy, parts),
    }
}

/// The expressions that the items make, the last one first.
fn made(alloc: Global, line: u64, items: Vec<Item>) -> Result<Vec<Expr>, ScriptFault>
    ensures { Gives (λ v. reverse v.items) result (made_onto line items.items []) }
{
    let mut items = items;
    let mut parts = Vec::new(alloc);
    'items: while let Some(item) = items.pop() {
        finish(alloc, line, item, &mut parts)?;
    }
    Ok(parts)
}

fn single(line: u64, parts: Vec<Expr>) -> Result<Expr, ScriptFault>
    ensures { Gives (λ e. e) result (single_of line (reverse parts.items)) }
{
    let mut parts = parts;
    let whole = parts.pop().ok_or(bad(line))?;
    if parts.is_empty() {
        return Ok(whole);
    }
    Err(bad(line))
}

/// The expression that the words after `expr` spell.
#[tactic(auto, unfolding(crate::specs::Items::expression_at))]
pub fn expression(alloc: Global, line: u64, words: Option<&[u8]>) -> Result<Expr, ScriptFault>
    ensures { Gives (λ e. e) result (expression_at line (words_left words.entry)) }
{
    let items = items(alloc, line, words)?;
    let parts = made(alloc, line, items)?;
    single(line, parts)
}
