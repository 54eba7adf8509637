//! The words of a plan line.

ghost use Rattle.std.specs.Prelude.{◌≡◌, ◌<◌, length, option_map};
ghost use Rattle.rx_script.specs.Names.{all_plan_names};
ghost use Rattle.rx_script.specs.Pieces.{words_left};
ghost use Rattle.rx_script.specs.Plans.{unplanned, chosen_by, with_word, bare_word, valued_word, plan_word};
ghost use Rattle.rx_script.specs.Plans.{number_of_name, plan_of};

use crate::names::{PLAN_NAMES, PlanName, plan_name, plan_name_of, start_of};
use crate::pieces::{cut, next_word};
use crate::tokens::{number, one_byte, set};
use rx_base::{ByteSet, StartKind};
use rx_plan::{Form, Passage, Plan};

/// What a plan line sets: a plan, and whether the sizes of the tables are reported.
#[derive(Drop)]
pub struct Choices {
    pub plan: Plan,
    pub rows: bool,
}

/// A word of a plan line.
#[derive(Drop)]
pub enum PlanWord {
    Start(StartKind),
    Patterns,
    NoClasses,
    Quit(ByteSet),
    UnicodeWord,
    LineTerminator(u8),
    NfaLimit(u32),
    DfaLimit(u32),
    DeterminizeLimit(u32),
    Minimize,
    NoAccelerate,
    Mark,
    Sparse,
    Bytes,
    Pair,
    Rows,
}

/// What a word sets, by a name. `bytes` and `pair` set the same.
fn chosen_by(word: &PlanWord) -> PlanName
    ensures { result ≡ chosen_by word.now }
{
    match word {
        PlanWord::Start(_) => PlanName::Start,
        PlanWord::Patterns => PlanName::Patterns,
        PlanWord::NoClasses => PlanName::NoClasses,
        PlanWord::Quit(_) => PlanName::Quit,
        PlanWord::UnicodeWord => PlanName::UnicodeWord,
        PlanWord::LineTerminator(_) => PlanName::LineTerminator,
        PlanWord::NfaLimit(_) => PlanName::NfaLimit,
        PlanWord::DfaLimit(_) => PlanName::DfaLimit,
        PlanWord::DeterminizeLimit(_) => PlanName::DeterminizeLimit,
        PlanWord::Minimize => PlanName::Minimize,
        PlanWord::NoAccelerate => PlanName::NoAccelerate,
        PlanWord::Mark => PlanName::Mark,
        PlanWord::Sparse => PlanName::Sparse,
        PlanWord::Bytes | PlanWord::Pair => PlanName::Bytes,
        PlanWord::Rows => PlanName::Rows,
    }
}

/// The place of a name in the list of names, which has each name.
#[tactic(auto, using(crate::proofs::Tables::place_small))]
fn place(name: PlanName) -> usize
    ensures value { result ≡ number_of_name name }
    ensures small { result < length all_plan_names }
{
    PLAN_NAMES
        .iter()
        .position(|other| plan_name(name) == plan_name(*other))
        .unwrap()
}

impl Choices {
    /// The settings without a plan line.
    pub fn new() -> Choices
        ensures { result ≡ unplanned }
    {
        Choices {
            plan: Plan::new(),
            rows: false,
        }
    }

    /// Sets what a word says.
    fn choose(&mut self, word: PlanWord)
        ensures { self.new ≡ with_word word self.old }
    {
        let plan = &mut self.plan;
        match word {
            PlanWord::Start(kind) => plan.start_kind = kind,
            PlanWord::Patterns => plan.pattern_starts = true,
            PlanWord::NoClasses => plan.byte_classes = false,
            PlanWord::Quit(set) => plan.quit = set,
            PlanWord::UnicodeWord => plan.unicode_word = true,
            PlanWord::LineTerminator(byte) => plan.line_terminator = byte,
            PlanWord::NfaLimit(bytes) => plan.nfa_limit = Some(bytes as usize),
            PlanWord::DfaLimit(bytes) => plan.dfa_limit = Some(bytes as usize),
            PlanWord::DeterminizeLimit(bytes) => plan.determinize_limit = Some(bytes as usize),
            PlanWord::Minimize => plan.minimize = true,
            PlanWord::NoAccelerate => plan.accelerate = false,
            PlanWord::Mark => plan.mark_starts = true,
            PlanWord::Sparse => plan.form = Form::Sparse,
            PlanWord::Bytes => plan.passage = Passage::Bytes,
            PlanWord::Pair => plan.passage = Passage::Pair,
            PlanWord::Rows => self.rows = true,
        }
    }
}

/// The word with this name and no value.
fn bare_word(name: PlanName) -> Option<PlanWord>
    ensures { result ≡ bare_word name }
{
    match name {
        PlanName::Patterns => Some(PlanWord::Patterns),
        PlanName::NoClasses => Some(PlanWord::NoClasses),
        PlanName::UnicodeWord => Some(PlanWord::UnicodeWord),
        PlanName::Minimize => Some(PlanWord::Minimize),
        PlanName::NoAccelerate => Some(PlanWord::NoAccelerate),
        PlanName::Mark => Some(PlanWord::Mark),
        PlanName::Sparse => Some(PlanWord::Sparse),
        PlanName::Bytes => Some(PlanWord::Bytes),
        PlanName::Pair => Some(PlanWord::Pair),
        PlanName::Rows => Some(PlanWord::Rows),
        _ => None,
    }
}

/// The word with this name and this value.
fn valued_word(name: PlanName, value: &[u8]) -> Option<PlanWord>
    ensures { result ≡ valued_word name value.now }
{
    match name {
        PlanName::Start => start_of(value).map(PlanWord::Start),
        PlanName::Quit => set(value).map(PlanWord::Quit),
        PlanName::LineTerminator => one_byte(value).map(PlanWord::LineTerminator),
        PlanName::NfaLimit => number(value).map(PlanWord::NfaLimit),
        PlanName::DfaLimit => number(value).map(PlanWord::DfaLimit),
        PlanName::DeterminizeLimit => number(value).map(PlanWord::DeterminizeLimit),
        _ => None,
    }
}

#[tactic(auto, unfolding(crate::specs::Plans::plan_word))]
fn plan_word(word: &[u8]) -> Option<PlanWord>
    ensures { result ≡ plan_word word.now }
{
    let (name, value) = cut(b'=', word);
    let name = plan_name_of(name)?;
    match value {
        Some(value) => valued_word(name, value),
        None => bare_word(name),
    }
}

/// The settings of the words after `plan`, or `None` if a word isn't known, a name occurs twice, or both `bytes` and
/// `pair` occur.
pub fn plan_line(words: Option<&[u8]>) -> Option<Choices>
    ensures { result ≡ plan_of (words_left words.entry) }
{
    let mut choices = Choices::new();
    let mut seen = [false; PLAN_NAMES.len()];
    let mut rest = words;
    'words: while let Some((word, after)) = next_word(rest) {
        let word = plan_word(word)?;
        let place = place(chosen_by(&word));
        if seen[place] {
            return None;
        }
        seen[place] = true;
        choices.choose(word);
        rest = after;
    }
    Some(choices)
}
