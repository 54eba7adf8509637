//! The definitions of the project: what every other crate's contracts cite.
//!
//! A reader who wants to know what is claimed starts here. The enums below are the plain words
//! of the subject. Everything else stands in `specs/`, in the order of docs/definitions.md: sets of
//! bytes, assertions, expressions and their ends, what a search finds, the rows of an NFA, powerset
//! states and their steps, tables, searches over tables. No function of this crate has a loop.
#![tactic(auto)]

mod steps;

pub use steps::{Steps, Tally};

/// An assertion: a test of the two bytes beside a place of the haystack. It reads no byte.
///
/// The names and meanings are those of the Rust crate `regex-automata`. The Unicode word assertions
/// are decided by ASCII word bytes here: `0-9`, `A-Z`, `a-z` and `_`.
#[derive(Clone, Copy, Debug, PartialEq, Eq)]
pub enum Look {
    /// The start of the haystack.
    Start,
    /// The end of the haystack.
    End,
    /// The start of the haystack, or a place after a line terminator.
    StartLF,
    /// The end of the haystack, or a place before a line terminator.
    EndLF,
    /// The start of a line that `\r`, `\n` or `\r\n` ended; never between `\r` and `\n`.
    StartCRLF,
    /// The end of a line that `\r`, `\n` or `\r\n` ends; never between `\r` and `\n`.
    EndCRLF,
    /// A word boundary: exactly one neighbour is a word byte.
    WordAscii,
    /// No word boundary.
    WordAsciiNegate,
    /// As [`Look::WordAscii`].
    WordUnicode,
    /// As [`Look::WordAsciiNegate`].
    WordUnicodeNegate,
    /// The start of a word.
    WordStartAscii,
    /// The end of a word.
    WordEndAscii,
    /// As [`Look::WordStartAscii`].
    WordStartUnicode,
    /// As [`Look::WordEndAscii`].
    WordEndUnicode,
    /// No word byte stands before.
    WordStartHalfAscii,
    /// No word byte stands after.
    WordEndHalfAscii,
    /// As [`Look::WordStartHalfAscii`].
    WordStartHalfUnicode,
    /// As [`Look::WordEndHalfAscii`].
    WordEndHalfUnicode,
}

/// In which direction a haystack is read.
#[derive(Clone, Copy, Debug, PartialEq, Eq)]
pub enum Direction {
    /// From its start to its end.
    Forward,
    /// From its end to its start.
    Reverse,
}

/// Which matches a table tells.
#[derive(Clone, Copy, Debug, PartialEq, Eq)]
pub enum MatchKind {
    /// Every match of every pattern.
    All,
    /// The leftmost match, and there the one that is preferred, as in Perl and RE2.
    LeftmostFirst,
}

impl Default for MatchKind {
    ghost use Rattle.std.specs.Prelude.{◌≡◌};
    ghost use Rattle.rx_spec.specs.declared.MatchKind.TheVariants.{LeftmostFirst};

    ghost is_default = { λ kind. kind ≡ LeftmostFirst };

    fn default() -> MatchKind {
        MatchKind::LeftmostFirst
    }
}

/// For which modes of a search a table has start rows.
#[derive(Clone, Copy, Debug, PartialEq, Eq)]
pub enum StartKind {
    /// For unanchored and for anchored searches.
    Both,
    /// For unanchored searches only.
    Unanchored,
    /// For anchored searches only.
    Anchored,
}

impl StartKind {
    ghost use Rattle.std.specs.Prelude.{◌≡◌};
    ghost use Rattle.rx_spec.specs.Starts.{has_unanchored, has_anchored};

    /// Whether there are start rows for unanchored searches.
    pub fn has_unanchored(&self) -> bool
        ensures { result ≡ has_unanchored self.now }
    {
        matches!(self, StartKind::Both | StartKind::Unanchored)
    }

    /// Whether there are start rows for anchored searches.
    pub fn has_anchored(&self) -> bool
        ensures { result ≡ has_anchored self.now }
    {
        matches!(self, StartKind::Both | StartKind::Anchored)
    }
}

/// What is known of the byte beside a span, on the side where a search begins: before it forward, after it
/// in reverse.
#[derive(Clone, Copy, Debug, PartialEq, Eq)]
pub enum Start {
    /// A byte that is none of the following.
    NonWordByte,
    /// A word byte.
    WordByte,
    /// No byte: the edge of the haystack.
    Text,
    /// The byte `\n`.
    LineLF,
    /// The byte `\r`.
    LineCR,
    /// A line terminator other than `\n` and `\r`, also where it is a word byte.
    CustomLineTerminator,
}

/// How the rows of a table are kept.
#[derive(Clone, Copy, Debug, PartialEq, Eq)]
pub enum Form {
    /// A column for each class of bytes.
    Dense,
    /// Ranges of classes that lead to one row.
    Sparse,
}

/// What an automaton reads: a byte, or the end mark, where the haystack has no further byte.
#[derive(Clone, Copy, Debug, PartialEq, Eq)]
pub enum Unit {
    /// A byte.
    Byte(u8),
    /// The edge of the haystack: its end, or in reverse its start.
    Eoi,
}
