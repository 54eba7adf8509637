//! Scripts and their reader.

ghost use Rattle.std.specs.Prelude.{◌≡◌, ◌+◌, ◌^◌, ◌<◌, ◌≤◌, length, true, option_map, IfOk, IfSome};
ghost use Rattle.rx_script.specs.declared.fault.BadKind.{BadKind};
ghost use Rattle.rx_script.specs.Pieces.{words_left, lines_of};
ghost use Rattle.rx_script.specs.Grammar.{Spelled, Spells};
ghost use Rattle.rx_script.specs.Faults.{Gives};
ghost use Rattle.rx_script.specs.Reading.{line_at, input_words, hay_words, nothing_at, asked_at, hay_at, input_at};
ghost use Rattle.rx_script.specs.Reading.{next_at};
ghost use Rattle.rx_script.specs.Reading.{lines_at, plan_at, spelled, script_of};
ghost use Rattle.rx_script.specs.Script.{asked_read, next_read, LeavesFewer, script_read};

use crate::expression::expression;
use crate::fault::{BadKind, ScriptFault};
use crate::names::{LineKind, line_kind};
use crate::pieces::{cut, is_spaced, next_line, next_word};
use crate::plan_words::{Choices, plan_line};
use crate::tokens::{bytes, mode, number};
use rx_base::{Anchored, Input};
use rx_expr::Expr;
use rx_plan::Plan;
use std::alloc::{AllocError, Global};
use std::marker::Model;

/// The expressions of a script.
#[derive(Drop)]
pub struct Exprs {
    exprs: Vec<Expr>,
}

impl Model for Exprs {
    ghost use Rattle.std.specs.Prelude.{List};
    ghost use Rattle.std.specs.Coded.{coded_list};
    ghost use Rattle.rx_spec.specs.Expressions.{Expression};
    ghost use Rattle.rx_expr.specs.ExpressionCode.{expression_code};

    ghost Value = { List Expression };

    ghost coded = { coded_list expression_code };

    ghost view = { λ e. e.exprs.items };
}

impl Exprs {
    /// The expressions. The first one is pattern 0.
    pub fn as_slice(&self) -> &[Expr]
        ensures { result.now ≡ self.now }
    {
        &self.exprs
    }
}

/// The haystack of a script.
#[derive(Drop)]
pub struct Hay {
    bytes: Vec<u8>,
}

impl Model for Hay {
    ghost use Rattle.std.specs.Prelude.{ℕ, List};

    ghost Value = { List ℕ };

    ghost view = { λ h. h.bytes.items };
}

impl Hay {
    /// The bytes.
    pub fn as_slice(&self) -> &[u8]
        ensures { result.now ≡ self.now }
    {
        &self.bytes
    }
}

/// The input of a script: a haystack, a span and a mode.
#[derive(Drop)]
pub struct ScriptInput {
    /// Where the span starts.
    pub start: usize,
    /// Where the span ends.
    pub end: usize,
    /// The mode of the search.
    pub mode: Anchored,
    /// The haystack.
    pub haystack: Hay,
}

/// A script.
#[derive(Drop)]
pub struct Script {
    /// The plan.
    pub plan: Plan,
    /// Whether the sizes of the tables are reported.
    pub rows: bool,
    /// The expressions.
    pub exprs: Exprs,
    /// The input, if the script has one.
    pub input: Option<ScriptInput>,
}

fn bad(line: u64, kind: BadKind) -> ScriptFault
    ensures { result ≡ ScriptFault.Bad line kind }
{
    ScriptFault::Bad { line, kind }
}

/// The kind of a line, and the words after its first one.
fn words(number: u64, line: &[u8]) -> Result<(Option<LineKind>, Option<&[u8]>), ScriptFault>
    ensures { Gives (λ x. (x.0, words_left x.1)) result (line_at number line.now) }
{
    if !is_spaced(line) {
        return Err(bad(number, BadKind::Words));
    }
    let (first, others) = cut(b' ', line);
    Ok((line_kind(first), others))
}

/// A span and a mode.
#[derive(Clone, Copy)]
struct InputLine {
    start: usize,
    end: usize,
    mode: Anchored,
}

/// The span and the mode that the words after `input` spell.
fn input_words(words: Option<&[u8]>) -> Option<InputLine>
    ensures { result ≡ input_words (words_left words.entry) }
{
    let (start, rest) = next_word(words)?;
    let (end, rest) = next_word(rest)?;
    let (mode_word, rest) = next_word(rest)?;
    let None = next_word(rest) else {
        return None;
    };
    let start = number(start)?;
    let end = number(end)?;
    let mode = mode(mode_word)?;
    Some(InputLine {
        start: start as usize,
        end: end as usize,
        mode,
    })
}

fn hay_words(alloc: Global, words: Option<&[u8]>) -> Result<Option<Vec<u8>>, AllocError>
    ensures { IfOk result (λ o. option_map (λ v. v.items) o ≡ hay_words (words_left words.entry)) }
{
    let Some((word, rest)) = next_word(words) else {
        return Ok(None);
    };
    match next_word(rest) {
        Some(_) => Ok(None),
        None => bytes(alloc, word),
    }
}

/// Returns a fault if a line follows.
fn nothing(number: u64, text: &[u8]) -> Result<(), ScriptFault>
    ensures { Gives (λ _. tt) result (nothing_at number (lines_of text.now)) }
{
    match next_line(text) {
        Some((line, _)) => {
            words(number, line)?;
            Err(bad(number, BadKind::Order))
        }
        None => Ok(()),
    }
}

/// The input, if the words after `hay` spell a haystack that the span fits, and no line follows.
#[tactic(auto, unfolding(crate::specs::Reading::asked_at))]
fn asked_input(
    alloc: Global,
    number: u64,
    asked: InputLine,
    words: Option<&[u8]>,
    text: &[u8],
) -> Result<ScriptInput, ScriptFault>
    requires { number + 1 < 2 ^ 64 }
    ensures { Gives asked_read result (asked_at number asked (words_left words.entry) (lines_of text.now)) }
{
    let bytes = hay_words(alloc, words)?.ok_or(bad(number, BadKind::Hay))?;
    if !Input::fits(bytes.len(), asked.start, asked.end) {
        return Err(bad(number, BadKind::Span));
    }
    nothing(number + 1, text)?;
    Ok(ScriptInput {
        start: asked.start,
        end: asked.end,
        mode: asked.mode,
        haystack: Hay { bytes },
    })
}

/// Reads the line of the haystack, which must be the last one.
#[tactic(auto, unfolding(crate::specs::Reading::hay_at))]
fn hay_line(
    alloc: Global,
    number: u64,
    span: InputLine,
    text: &[u8],
) -> Result<ScriptInput, ScriptFault>
    requires { number + 1 < 2 ^ 64 }
    ensures { Gives asked_read result (hay_at number span (lines_of text.now)) }
{
    let Some((line, after)) = next_line(text) else {
        return Err(bad(number, BadKind::Order));
    };
    let (kind, others) = words(number, line)?;
    match kind {
        Some(LineKind::Hay) => asked_input(alloc, number, span, others, after),
        _ => Err(bad(number, BadKind::Order)),
    }
}

/// Reads the words after `input`, and the line of the haystack after them.
#[tactic(auto, unfolding(crate::specs::Reading::input_at))]
fn input_line(
    alloc: Global,
    number: u64,
    words: Option<&[u8]>,
    text: &[u8],
) -> Result<ScriptInput, ScriptFault>
    requires { number + 2 < 2 ^ 64 }
    ensures { Gives asked_read result (input_at number (words_left words.entry) (lines_of text.now)) }
{
    let span = input_words(words).ok_or(bad(number, BadKind::Input))?;
    hay_line(alloc, number + 1, span, text)
}

/// The next line by its kind, with the text after it.
#[derive(Drop)]
enum NextLine<'a> {
    Expr(Expr, &'a [u8]),
    Input(Option<&'a [u8]>, &'a [u8]),
    End,
}

#[tactic(auto, unfolding(crate::specs::Reading::next_at))]
fn next_part(
    alloc: Global,
    with_input: bool,
    number: u64,
    text: &[u8],
) -> Result<NextLine<'_>, ScriptFault>
    ensures given { Gives next_read result (next_at with_input number (lines_of text.now)) }
    ensures fewer { IfOk result (λ next. LeavesFewer next (length text.now)) }
{
    let Some((line, after)) = next_line(text) else {
        if with_input {
            return Err(bad(number, BadKind::Order));
        }
        return Ok(NextLine::End);
    };
    let (kind, others) = words(number, line)?;
    match kind {
        Some(LineKind::Expr) => {
            let expr = expression(alloc, number, others)?;
            Ok(NextLine::Expr(expr, after))
        }
        Some(LineKind::Input) => {
            if with_input {
                return Ok(NextLine::Input(others, after));
            }
            Err(bad(number, BadKind::Order))
        }
        _ => Err(bad(number, BadKind::Order)),
    }
}

/// Reads the expressions and the input, from the line with this number on.
fn parts(
    alloc: Global,
    with_input: bool,
    number: u64,
    text: &[u8],
) -> Result<(Exprs, Option<ScriptInput>), ScriptFault>
    requires { number + length text.now + 2 < 2 ^ 64 }
    ensures { Gives (λ x. (x.0, option_map asked_read x.1)) result (lines_at with_input number (lines_of text.now)) }
{
    let mut exprs = Vec::new(alloc);
    let mut number = number;
    let mut rest = text;
    'lines: loop {
        match next_part(alloc, with_input, number, rest)? {
            NextLine::Expr(expr, after) => {
                exprs.push(expr)?;
                number += 1;
                rest = after;
            }
            NextLine::Input(words, after) => {
                let input = input_line(alloc, number, words, after)?;
                return Ok((Exprs { exprs }, Some(input)));
            }
            NextLine::End => return Ok((Exprs { exprs }, None)),
        }
    }
}

/// Reads the plan line if the first line is one. Returns the text after it too.
#[tactic(auto, unfolding(crate::specs::Reading::plan_at))]
fn plan_part(text: &[u8]) -> Result<Option<(Choices, &[u8])>, ScriptFault>
    ensures given { Gives (λ o. option_map (λ p. (p.0, lines_of p.1.now)) o) result (plan_at (lines_of text.now)) }
    ensures fewer { IfOk result (λ o. IfSome o (λ p. length p.1.now < length text.now)) }
{
    let Some((line, after)) = next_line(text) else {
        return Ok(None);
    };
    let (kind, others) = words(1, line)?;
    match kind {
        Some(LineKind::Plan) => {
            let choices = plan_line(others).ok_or(bad(1, BadKind::Plan))?;
            Ok(Some((choices, after)))
        }
        _ => Ok(None),
    }
}

fn whole(
    alloc: Global,
    with_input: bool,
    choices: Choices,
    number: u64,
    text: &[u8],
) -> Result<Script, ScriptFault>
    requires { number + length text.now + 2 < 2 ^ 64 }
    ensures { Gives script_read result (spelled choices (lines_at with_input number (lines_of text.now))) }
{
    let (exprs, input) = parts(alloc, with_input, number, text)?;
    Ok(Script {
        plan: choices.plan,
        rows: choices.rows,
        exprs,
        input,
    })
}

#[tactic(auto, unfolding(crate::specs::Reading::script_of))]
fn read_whole(alloc: Global, text: &[u8], with_input: bool) -> Result<Script, ScriptFault>
    ensures { Gives script_read result (script_of with_input text.now) }
{
    match plan_part(text) {
        Ok(Some((choices, after))) => whole(alloc, with_input, choices, 2, after),
        Ok(None) => whole(alloc, with_input, Choices::new(), 1, text),
        Err(fault) => Err(fault),
    }
}

/// Reads a script. `with_input` is whether it must have an input; otherwise it must have none.
///
/// `Bad` has the first fault of the text.
pub fn read_script(alloc: Global, text: &[u8], with_input: bool) -> Result<Script, ScriptFault>
    // What is read is what the text spells.
    ensures found { IfOk result (λ script. Spells with_input text.now (script_read script)) }
    // What the text spells is read, unless memory runs out.
    ensures only { (script : Spelled) → Spells with_input text.now script → Gives script_read result (Ok script) }
    // Which script or fault it is.
    ensures exact { Gives script_read result (script_of with_input text.now) }
{
    read_whole(alloc, text, with_input)
}
