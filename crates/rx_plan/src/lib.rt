//! Plans: the settings by which `rx_regex` builds and searches the tables of a list of expressions.
//!
//! A [`Plan`] is plain data. Contracts see it as a plan of the definitions, by `plan_of` of `specs/Plan.antt`. The
//! definitions of plans (`Plans` in `rx_spec`) say what is built of it and why a build fails.
#![tactic(auto)]

ghost use Rattle.std.specs.Prelude.{◌≡◌, None, true, false};
ghost use Rattle.rx_spec.specs.declared.Form.{Form};
ghost use Rattle.rx_spec.specs.declared.StartKind.{StartKind};
ghost use Rattle.rx_plan.specs.Plan.{usual};

use rx_base::{ByteSet, StartKind};
pub use rx_spec::Form;

/// How to build the tables of a list of expressions, and in which form.
#[derive(Clone, Copy, Debug)]
pub struct Plan {
    /// For which modes of a search there are start states.
    pub start_kind: StartKind,
    /// Whether each pattern has start states of its own.
    pub pattern_starts: bool,
    /// Whether bytes that a table treats alike share a column.
    pub byte_classes: bool,
    /// The quit bytes: a search that reads one ends with an error.
    pub quit: ByteSet,
    /// Whether bytes from 0x80 on are quit bytes if an expression has a Unicode word assertion.
    pub unicode_word: bool,
    /// The line terminator of the line assertions.
    pub line_terminator: u8,
    /// The most bytes that an NFA may take, at 40 bytes a state.
    pub nfa_limit: Option<usize>,
    /// The most bytes that a table may take.
    pub dfa_limit: Option<usize>,
    /// The most bytes that a construction's states may take.
    pub determinize_limit: Option<usize>,
    /// Whether the tables have the fewest states.
    pub minimize: bool,
    /// Whether states are accelerated: searches skip from states that few bytes leave.
    pub accelerate: bool,
    /// Whether start states are marked.
    pub mark_starts: bool,
    /// The form of the tables: dense or sparse.
    pub form: Form,
    /// Whether the tables are searched as built, or written and read back before.
    pub passage: Passage,
}

impl Plan {
    /// The default plan: start states for both modes but not for single patterns, byte classes, no quit bytes, the line
    /// terminator `\n`, no limits, and dense tables that are searched as built.
    pub fn new() -> Plan
        ensures { result ≡ usual }
    {
        Plan {
            start_kind: StartKind::Both,
            pattern_starts: false,
            byte_classes: true,
            quit: ByteSet::empty(),
            unicode_word: false,
            line_terminator: b'\n',
            nfa_limit: None,
            dfa_limit: None,
            determinize_limit: None,
            minimize: false,
            accelerate: true,
            mark_starts: false,
            form: Form::Dense,
            passage: Passage::Direct,
        }
    }
}

/// What happens to the tables between their build and a search.
#[derive(Clone, Copy, Debug, PartialEq, Eq)]
pub enum Passage {
    /// Nothing.
    Direct,
    /// Each table is written as an image of its own and read back.
    Bytes,
    /// Both tables are written as one image and read back.
    Pair,
}
