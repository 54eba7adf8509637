//! A table of parts that are known to fit.

ghost use Rattle.std.specs.Prelude.{◌≡◌};
ghost use Rattle.rx_dense.specs.Layouts.{IsShaped};
ghost use Rattle.rx_dense.specs.Parts.{layout_of};

use crate::{Accels, DFA, Flags, OwnedDFA, Special};
use rx_base::{ByteClasses, ByteSet, Start, StartKind, StateID};

/// The parts of a dense table, as an image spells them.
#[derive(Drop)]
pub struct Parts {
    /// What is known of the patterns.
    pub flags: Flags,
    /// The class of each byte.
    pub classes: ByteClasses,
    /// How many words a row has, as the exponent of a power of two.
    pub stride2: usize,
    /// The words of the rows: each row's next ids, and zeros up to the stride.
    pub words: Vec<u32>,
    /// For which modes there are start rows.
    pub start_kind: StartKind,
    /// The start context of each byte.
    pub contexts: [Start; 256],
    /// How many patterns have starts of their own, if any have.
    pub start_pattern_len: Option<usize>,
    /// The ids of the start rows: six without an anchor, six with one, and six for each pattern that has its own.
    pub start_ids: Vec<u32>,
    /// The start row of an unanchored search, whatever stands beside its span.
    pub universal_unanchored: Option<StateID>,
    /// The start row of an anchored search, whatever stands beside its span.
    pub universal_anchored: Option<StateID>,
    /// Two words for each match row: where its patterns begin among the pattern ids, and how many there are.
    pub slices: Vec<u32>,
    /// The patterns of all match rows.
    pub pattern_ids: Vec<u32>,
    /// How many patterns there are.
    pub pattern_len: usize,
    /// Which rows are special.
    pub special: Special,
    /// The needles of the accelerated rows, in their order.
    pub accels: Accels,
    /// The bytes that can't be searched.
    pub quitset: ByteSet,
}

impl DFA<Vec<u32>> {
    /// The table of these parts, which must fit each other.
    pub fn from_parts(parts: Parts) -> OwnedDFA
        requires { IsShaped (layout_of parts) }
        ensures { result ≡ layout_of parts }
    {
        let contexts = parts.contexts;
        let marks = Vec::new(*parts.words.allocator());
        DFA {
            words: parts.words,
            classes: parts.classes,
            stride2: parts.stride2,
            special: parts.special,
            starts: parts.start_ids,
            start_kind: parts.start_kind,
            contexts,
            pattern_starts: parts.start_pattern_len,
            universal_unanchored: parts.universal_unanchored,
            universal_anchored: parts.universal_anchored,
            slices: parts.slices,
            pattern_ids: parts.pattern_ids,
            marks,
            pattern_len: parts.pattern_len,
            accels: parts.accels.into_words(),
            quitset: parts.quitset,
            flags: parts.flags,
        }
    }
}
