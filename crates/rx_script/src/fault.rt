//! The faults of a script.

ghost use Rattle.std.specs.Prelude.{◌≡◌, Some};
ghost use Rattle.rx_script.specs.declared.fault.ScriptFault.TheVariants.{Memory};

use std::alloc::{AllocError, AllocFailed};
use std::fmt;

/// The fault of a line: the first test that it fails, in this order.
#[derive(Clone, Copy, Debug, PartialEq, Eq)]
pub enum BadKind {
    /// It isn't words with one space between two.
    Words,
    /// A line that starts with this word may not stand there, or a line that is needed is missing.
    Order,
    /// A word isn't a plan word, or a name occurs twice.
    Plan,
    /// The words aren't exactly one expression.
    Expr,
    /// The greatest number of rounds of a repetition is below the least.
    BadRange,
    /// A repetition without a greatest number of rounds has a body that can match the empty string.
    EmptyBody,
    /// An expression is more than 200 deep.
    TooDeep,
    /// The words aren't a span and a mode.
    Input,
    /// The words aren't a haystack.
    Hay,
    /// The span doesn't fit the haystack.
    Span,
}

impl fmt::Display for BadKind {
    ghost use Rattle.rx_script.specs.Faults.{kind_name};

    ghost output = { λ kind. Some (kind_name kind) };

    fn fmt<W: fmt::Write>(&self, f: &mut fmt::Formatter<W>) -> fmt::Result {
        match self {
            BadKind::Words => write!(f, "words"),
            BadKind::Order => write!(f, "order"),
            BadKind::Plan => write!(f, "plan"),
            BadKind::Expr => write!(f, "expr"),
            BadKind::BadRange => write!(f, "bad-range"),
            BadKind::EmptyBody => write!(f, "empty-body"),
            BadKind::TooDeep => write!(f, "too-deep"),
            BadKind::Input => write!(f, "input"),
            BadKind::Hay => write!(f, "hay"),
            BadKind::Span => write!(f, "span"),
        }
    }
}

/// Why a script isn't read.
#[derive(Debug, Drop)]
pub enum ScriptFault {
    /// The first fault of the script.
    Bad {
        /// The number of the line, from 1.
        line: u64,
        /// The fault of the line.
        kind: BadKind,
    },
    /// Memory ran out.
    Memory,
}

impl From<AllocError> for ScriptFault {
    ghost from_gives = { λ _ e. e ≡ Memory };

    fn from(_: AllocError) -> ScriptFault {
        ScriptFault::Memory
    }
}

impl<T: Drop> From<AllocFailed<T>> for ScriptFault {
    ghost from_gives = { λ _ e. e ≡ Memory };

    fn from(_: AllocFailed<T>) -> ScriptFault {
        ScriptFault::Memory
    }
}
