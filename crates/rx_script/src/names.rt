//! The names of the words of a script, and look-ups by name.

ghost use Rattle.std.specs.Prelude.{◌≡◌};
ghost use Rattle.rx_script.specs.Names.{line_name, head_name, look_name, greed_name, anchored_name, plan_name};
ghost use Rattle.rx_script.specs.Names.{start_name};
ghost use Rattle.rx_script.specs.Names.{line_kind, head_of, look_of, greed_of, anchored_of, plan_name_of, start_of};

use rx_base::{Look, StartKind};

/// The kind of a line, by its first word.
#[derive(Clone, Copy, Debug, PartialEq, Eq)]
pub enum LineKind {
    Plan,
    Expr,
    Input,
    Hay,
}

/// The kind of an expression, by its first word.
#[derive(Clone, Copy, Debug, PartialEq, Eq)]
pub enum Head {
    Empty,
    Literal,
    Class,
    Look,
    Concat,
    Alternate,
    Repeat,
}

/// The setting of a plan word, by its name.
#[derive(Clone, Copy, Debug, PartialEq, Eq)]
pub enum PlanName {
    Start,
    Patterns,
    NoClasses,
    Quit,
    UnicodeWord,
    LineTerminator,
    NfaLimit,
    DfaLimit,
    DeterminizeLimit,
    Minimize,
    NoAccelerate,
    Mark,
    Sparse,
    Bytes,
    Pair,
    Rows,
}

const LINES: [LineKind; 4] = [
    LineKind::Plan,
    LineKind::Expr,
    LineKind::Input,
    LineKind::Hay,
];

const HEADS: [Head; 7] = [
    Head::Empty,
    Head::Literal,
    Head::Class,
    Head::Look,
    Head::Concat,
    Head::Alternate,
    Head::Repeat,
];

const LOOKS: [Look; 18] = [
    Look::Start,
    Look::End,
    Look::StartLF,
    Look::EndLF,
    Look::StartCRLF,
    Look::EndCRLF,
    Look::WordAscii,
    Look::WordAsciiNegate,
    Look::WordUnicode,
    Look::WordUnicodeNegate,
    Look::WordStartAscii,
    Look::WordEndAscii,
    Look::WordStartUnicode,
    Look::WordEndUnicode,
    Look::WordStartHalfAscii,
    Look::WordEndHalfAscii,
    Look::WordStartHalfUnicode,
    Look::WordEndHalfUnicode,
];

const TRUTHS: [bool; 2] = [true, false];

pub const PLAN_NAMES: [PlanName; 16] = [
    PlanName::Start,
    PlanName::Patterns,
    PlanName::NoClasses,
    PlanName::Quit,
    PlanName::UnicodeWord,
    PlanName::LineTerminator,
    PlanName::NfaLimit,
    PlanName::DfaLimit,
    PlanName::DeterminizeLimit,
    PlanName::Minimize,
    PlanName::NoAccelerate,
    PlanName::Mark,
    PlanName::Sparse,
    PlanName::Bytes,
    PlanName::Pair,
    PlanName::Rows,
];

const STARTS: [StartKind; 3] = [StartKind::Both, StartKind::Unanchored, StartKind::Anchored];

fn line_name(kind: LineKind) -> &'static [u8]
    ensures { result.now ≡ line_name kind }
{
    match kind {
        LineKind::Plan => b"plan",
        LineKind::Expr => b"expr",
        LineKind::Input => b"input",
        LineKind::Hay => b"hay",
    }
}

fn head_name(head: Head) -> &'static [u8]
    ensures { result.now ≡ head_name head }
{
    match head {
        Head::Empty => b"eps",
        Head::Literal => b"lit",
        Head::Class => b"cls",
        Head::Look => b"look",
        Head::Concat => b"cat",
        Head::Alternate => b"alt",
        Head::Repeat => b"rep",
    }
}

fn look_name(look: Look) -> &'static [u8]
    ensures { result.now ≡ look_name look }
{
    match look {
        Look::Start => b"start",
        Look::End => b"end",
        Look::StartLF => b"startlf",
        Look::EndLF => b"endlf",
        Look::StartCRLF => b"startcrlf",
        Look::EndCRLF => b"endcrlf",
        Look::WordAscii => b"word",
        Look::WordAsciiNegate => b"wordneg",
        Look::WordUnicode => b"uword",
        Look::WordUnicodeNegate => b"uwordneg",
        Look::WordStartAscii => b"wordstart",
        Look::WordEndAscii => b"wordend",
        Look::WordStartUnicode => b"uwordstart",
        Look::WordEndUnicode => b"uwordend",
        Look::WordStartHalfAscii => b"wordstarthalf",
        Look::WordEndHalfAscii => b"wordendhalf",
        Look::WordStartHalfUnicode => b"uwordstarthalf",
        Look::WordEndHalfUnicode => b"uwordendhalf",
    }
}

fn greed_name(greedy: bool) -> &'static [u8]
    ensures { result.now ≡ greed_name greedy }
{
    if greedy { b"greedy" } else { b"lazy" }
}

fn anchored_name(anchored: bool) -> &'static [u8]
    ensures { result.now ≡ anchored_name anchored }
{
    if anchored { b"yes" } else { b"no" }
}

pub fn plan_name(name: PlanName) -> &'static [u8]
    ensures { result.now ≡ plan_name name }
{
    match name {
        PlanName::Start => b"start",
        PlanName::Patterns => b"patterns",
        PlanName::NoClasses => b"noclasses",
        PlanName::Quit => b"quit",
        PlanName::UnicodeWord => b"uword",
        PlanName::LineTerminator => b"lt",
        PlanName::NfaLimit => b"nfa",
        PlanName::DfaLimit => b"dfa",
        PlanName::DeterminizeLimit => b"det",
        PlanName::Minimize => b"minimize",
        PlanName::NoAccelerate => b"noaccel",
        PlanName::Mark => b"mark",
        PlanName::Sparse => b"sparse",
        PlanName::Bytes => b"bytes",
        PlanName::Pair => b"pair",
        PlanName::Rows => b"rows",
    }
}

fn start_name(kind: StartKind) -> &'static [u8]
    ensures { result.now ≡ start_name kind }
{
    match kind {
        StartKind::Both => b"both",
        StartKind::Unanchored => b"unanchored",
        StartKind::Anchored => b"anchored",
    }
}

/// The kind of a line with this first word.
#[tactic(auto, unfolding(crate::specs::Names::line_kind))]
pub fn line_kind(word: &[u8]) -> Option<LineKind>
    ensures { result ≡ line_kind word.now }
{
    LINES.iter().copied().find(|kind| word == line_name(*kind))
}

/// The kind of an expression with this first word.
#[tactic(auto, unfolding(crate::specs::Names::head_of))]
pub fn head_of(word: &[u8]) -> Option<Head>
    ensures { result ≡ head_of word.now }
{
    HEADS.iter().copied().find(|head| word == head_name(*head))
}

/// The assertion with this name.
#[tactic(auto, unfolding(crate::specs::Names::look_of))]
pub fn look_of(word: &[u8]) -> Option<Look>
    ensures { result ≡ look_of word.now }
{
    LOOKS.iter().copied().find(|look| word == look_name(*look))
}

/// Whether the word says greedy or lazy: `true` for greedy.
#[tactic(auto, unfolding(crate::specs::Names::greed_of))]
pub fn greed_of(word: &[u8]) -> Option<bool>
    ensures { result ≡ greed_of word.now }
{
    TRUTHS
        .iter()
        .copied()
        .find(|greedy| word == greed_name(*greedy))
}

/// Whether the word says anchored (`yes`) or unanchored (`no`).
#[tactic(auto, unfolding(crate::specs::Names::anchored_of))]
pub fn anchored_of(word: &[u8]) -> Option<bool>
    ensures { result ≡ anchored_of word.now }
{
    TRUTHS
        .iter()
        .copied()
        .find(|anchored| word == anchored_name(*anchored))
}

/// The setting of a plan word with this name.
#[tactic(auto, unfolding(crate::specs::Names::plan_name_of))]
pub fn plan_name_of(word: &[u8]) -> Option<PlanName>
    ensures { result ≡ plan_name_of word.now }
{
    PLAN_NAMES
        .iter()
        .copied()
        .find(|name| word == plan_name(*name))
}

/// The start kind with this name.
#[tactic(auto, unfolding(crate::specs::Names::start_of))]
pub fn start_of(word: &[u8]) -> Option<StartKind>
    ensures { result ≡ start_of word.now }
{
    STARTS
        .iter()
        .copied()
        .find(|kind| word == start_name(*kind))
}
