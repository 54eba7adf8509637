//! The table.

ghost use Rattle.std.specs.Prelude.{◌≡◌, ◌<◌, ◌≤◌, ◌+◌, ◌*◌, ◌/◌, ◌^◌, [], length, get_or, slice_index, is_some, IfOk};
ghost use Rattle.rx_dense.specs.Builder.{memory_usage};
ghost use Rattle.rx_base.specs.Search.{mode_of};
ghost use Rattle.rx_base.specs.ByteClasses.{AreClasses, alphabet_len};
ghost use Rattle.rx_spec.specs.declared.Start.TheVariants.{NonWordByte};
ghost use Rattle.rx_spec.specs.Ids.{row_of};
ghost use Rattle.rx_search.specs.Starts.{IsId};
ghost use Rattle.rx_dense.specs.Accels.{accel_lists};
ghost use Rattle.rx_dense.specs.Layouts.{AreLists, AreRows, AreStarts, IsRowId, context_number, ids_of, is_row_id};
ghost use Rattle.rx_dense.specs.Layouts.{mode_place};
ghost use Rattle.rx_dense.specs.Marks.{AreMarks};
ghost use Rattle.rx_dense.specs.Layouts.{place_in_range, row_count, start_id, stride};

mod automaton;
mod build;
mod marks;
pub(crate) mod parts;
mod pattern_map;
mod rows;
pub(crate) mod starts;
pub(crate) mod states;

use crate::accel::needles_of;
use crate::{Flags, Special, WordStore};
use rx_base::{Anchored, ByteClasses, ByteSet, Needles, Start, StartKind, StateID};
use std::alloc::{AllocError, Global};
use std::marker::Model;

/// A dense table: each row has a word for each class of bytes and one for the end mark, the ids of its next rows.
///
/// An id is the place of a row's first word. Contracts see the table as a `Layout`, the record of its lists and
/// numbers, whatever store keeps them.
#[derive(Drop)]
pub struct DFA<T: WordStore> {
    words: T,
    classes: ByteClasses,
    stride2: usize,
    special: Special,
    starts: T,
    start_kind: StartKind,
    contexts: [Start; 256],
    pattern_starts: Option<usize>,
    universal_unanchored: Option<StateID>,
    universal_anchored: Option<StateID>,
    slices: T,
    pattern_ids: T,
    marks: T,
    pattern_len: usize,
    accels: T,
    quitset: ByteSet,
    flags: Flags,
    // Of each match row its first pattern, and whether a search may end there; or nothing.
    ghost marked: { AreMarks (T.list words) (alphabet_len classes) (2 ^ stride2) special.min_match (T.list slices)
        (T.list pattern_ids) (T.list marks) },
}

/// A dense table that owns its words, as a builder makes it.
pub type OwnedDFA = DFA<Vec<u32>>;

impl<T: WordStore> Model for DFA<T> {
    ghost use Rattle.rx_dense.specs.Accels.{accel_lists};
    ghost use Rattle.rx_dense.specs.Layouts.{Layout, IsShaped};

    ghost Value = { Layout };

    ghost view = { λ d. record {
      flags = d.flags;
      classes = d.classes;
      stride2 = d.stride2;
      words = T.list d.words;
      start_kind = d.start_kind;
      contexts = d.contexts;
      pattern_starts = d.pattern_starts;
      starts = T.list d.starts;
      universal_unanchored = d.universal_unanchored;
      universal_anchored = d.universal_anchored;
      slices = T.list d.slices;
      pattern_ids = T.list d.pattern_ids;
      pattern_len = d.pattern_len;
      special = d.special;
      accels = accel_lists (T.list d.accels);
      quit = d.quitset;
    } };

    ghost invariant = { λ d. IsShaped (view d) };
}

impl<T: WordStore> DFA<T> {
    /// For which modes there are start rows.
    pub fn start_kind(&self) -> StartKind
        ensures { result ≡ self.now.start_kind }
    {
        self.start_kind
    }

    /// Whether patterns have starts of their own.
    pub fn starts_for_each_pattern(&self) -> bool
        ensures { result ≡ is_some self.now.pattern_starts }
    {
        self.pattern_starts.is_some()
    }

    /// The class of each byte.
    pub fn byte_classes(&self) -> &ByteClasses
        ensures value { result.now ≡ self.now.classes }
        ensures are_classes { AreClasses self.now.classes }
    {
        &self.classes
    }

    /// How many columns a row has: one for each class, and one for the end mark.
    pub fn alphabet_len(&self) -> usize
        ensures { result ≡ alphabet_len self.now.classes }
    {
        self.classes.alphabet_len()
    }

    /// How many words a row has, as the exponent of a power of two.
    pub fn stride2(&self) -> usize
        ensures value { result ≡ self.now.stride2 }
        ensures bound { result ≤ 9 }
    {
        self.stride2
    }

    /// How many words a row has.
    pub fn stride(&self) -> usize
        ensures value { result ≡ stride self.now }
        ensures bound { result ≤ 512 }
    {
        1 << self.stride2
    }

    /// How many rows there are.
    pub fn state_len(&self) -> usize
        ensures value { result ≡ row_count self.now }
        ensures rows { AreRows self.now }
    {
        self.words.words().len() >> self.stride2
    }

    /// The bytes that can't be searched.
    pub fn quitset(&self) -> &ByteSet
        ensures { result.now ≡ self.now.quit }
    {
        &self.quitset
    }

    /// Which rows are special.
    pub fn special(&self) -> &Special
        ensures { result.now ≡ self.now.special }
    {
        &self.special
    }

    /// What is known of the patterns.
    pub fn flags(&self) -> &Flags
        ensures { result.now ≡ self.now.flags }
    {
        &self.flags
    }

    /// The start context of a byte that stands beside a span.
    pub fn start_context(&self, byte: u8) -> Start
        ensures { result ≡ get_or self.now.contexts byte NonWordByte }
    {
        self.contexts[byte as usize]
    }

    /// The same table, lent.
    pub fn as_ref(&self) -> DFA<&[u32]>
        ensures { result ≡ self.now }
    {
        DFA {
            words: self.words.words(),
            classes: self.classes,
            stride2: self.stride2,
            special: self.special,
            starts: self.starts.words(),
            start_kind: self.start_kind,
            contexts: self.contexts,
            pattern_starts: self.pattern_starts,
            universal_unanchored: self.universal_unanchored,
            universal_anchored: self.universal_anchored,
            slices: self.slices.words(),
            pattern_ids: self.pattern_ids.words(),
            marks: self.marks.words(),
            pattern_len: self.pattern_len,
            accels: self.accels.words(),
            quitset: self.quitset,
            flags: self.flags,
        }
    }

    /// A table of its own words that is the same.
    pub fn to_owned(&self, alloc: Global) -> Result<OwnedDFA, AllocError>
        ensures { IfOk result (λ dfa. dfa ≡ self.now) }
    {
        Ok(DFA {
            words: Vec::from_slice(alloc, self.words.words())?,
            classes: self.classes,
            stride2: self.stride2,
            special: self.special,
            starts: Vec::from_slice(alloc, self.starts.words())?,
            start_kind: self.start_kind,
            contexts: self.contexts,
            pattern_starts: self.pattern_starts,
            universal_unanchored: self.universal_unanchored,
            universal_anchored: self.universal_anchored,
            slices: Vec::from_slice(alloc, self.slices.words())?,
            pattern_ids: Vec::from_slice(alloc, self.pattern_ids.words())?,
            marks: Vec::from_slice(alloc, self.marks.words())?,
            pattern_len: self.pattern_len,
            accels: Vec::from_slice(alloc, self.accels.words())?,
            quitset: self.quitset,
            flags: self.flags,
        })
    }

    /// The bytes that the words take: those of the rows, the start entries, two words for each match row, the
    /// pattern ids, and one word and two for each accelerated row. What is made ahead for searches isn't counted.
    pub fn memory_usage(&self) -> usize
        ensures { result ≡ memory_usage self.now }
    {
        let accels = self.accel_words().len() / 2;
        let lists = self.slices().len() + self.pattern_ids().len();
        4 * (self.words().len() + self.start_ids().len() + lists + 1 + 2 * accels)
    }

    /// The words of the rows, each row's next ids and zeros up to the stride.
    #[inline(always)]
    pub fn words(&self) -> &[u32]
        ensures value { result.now ≡ self.now.words }
        ensures rows { AreRows self.now }
        ensures starts { AreStarts self.now }
    {
        self.words.words()
    }

    /// The ids of the start rows: six for the contexts of an unanchored search, six for those of an anchored one, and
    /// six for each pattern that has starts of its own.
    #[inline(always)]
    pub fn start_ids(&self) -> &[u32]
        ensures value { result.now ≡ self.now.starts }
        ensures starts { AreStarts self.now }
        ensures rows { AreRows self.now }
    {
        self.starts.words()
    }

    /// How many patterns have starts of their own, if any have.
    pub fn start_pattern_len(&self) -> Option<usize>
        ensures { result ≡ self.now.pattern_starts }
    {
        self.pattern_starts
    }

    /// The start rows of an unanchored search and of an anchored one, whatever stands beside its span, where there are
    /// such.
    pub fn universal_starts(&self) -> (Option<StateID>, Option<StateID>)
        ensures unanchored { result.0 ≡ self.now.universal_unanchored }
        ensures anchored { result.1 ≡ self.now.universal_anchored }
    {
        (self.universal_unanchored, self.universal_anchored)
    }

    /// Where the patterns of each match row begin among the pattern ids, and how many there are: two words for each.
    #[inline(always)]
    pub fn slices(&self) -> &[u32]
        ensures value { result.now ≡ self.now.slices }
        ensures lists { AreLists self.now }
    {
        self.slices.words()
    }

    /// The patterns of all match rows.
    #[inline(always)]
    pub fn pattern_ids(&self) -> &[u32]
        ensures { result.now ≡ self.now.pattern_ids }
    {
        self.pattern_ids.words()
    }

    /// The needles of all accelerated rows, two words for each.
    #[inline(always)]
    pub(crate) fn accel_words(&self) -> &[u32]
        ensures value { accel_lists result.now ≡ self.now.accels }
        ensures lists { AreLists self.now }
    {
        self.accels.words()
    }

    /// How many accelerated rows have needles.
    pub fn accel_len(&self) -> usize
        ensures value { result ≡ length self.now.accels }
        ensures bound { result < 2 ^ 32 }
    {
        self.accel_words().len() / 2
    }

    /// The needles of an accelerated row, by its place among those rows.
    pub fn needles_at(&self, i: usize) -> Needles
        requires { i < length self.now.accels }
        ensures { result ≡ get_or self.now.accels i [] }
    {
        needles_of(self.accel_words()[2 * i])
    }

    /// The row to which a column leads from a row.
    #[inline(always)]
    pub(crate) fn entry(&self, id: StateID, column: usize) -> StateID
        requires is_id { IsId (ids_of self.now) id }
        requires within { column < alphabet_len self.now.classes }
        ensures value { result ≡ slice_index self.now.words (id + column) }
        ensures is_id { IsId (ids_of self.now) result }
        ensures row { row_of (ids_of self.now) result
            ≡ slice_index self.now.words (row_of (ids_of self.now) id * stride self.now + column) / stride self.now }
    {
        // In this order what is read waits for the row before by a load alone, and not by a sum too.
        StateID::must(self.words()[column..][id.as_usize()] as usize)
    }

    /// Whether an id is that of a row.
    pub(crate) fn is_valid(&self, id: StateID) -> bool
        ensures value { result ≡ is_row_id self.now id }
        ensures rows { AreRows self.now }
    {
        let len = self.words().len();
        id.as_usize() % self.stride() == 0 && id.as_usize() < len
    }

    /// The start row of a mode and a context. A pattern without starts of its own starts at the dead row.
    pub(crate) fn start(&self, mode: Anchored, start: Start) -> StateID
        ensures value { result ≡ start_id self.now (mode_of mode) start }
        ensures is_row { IsRowId self.now result }
    {
        let first = mode_place(mode);
        let starts = self.start_ids();
        if first >= starts.len() {
            return StateID::ZERO;
        }
        StateID::must(starts[first + context_number(start)] as usize)
    }

    /// Which row of a range of rows that begins at `first` an id is that of.
    #[inline(always)]
    pub(crate) fn place_in_range(&self, first: StateID, id: StateID) -> usize
        requires { first ≤ id }
        ensures { result ≡ place_in_range self.now first id }
    {
        (id.as_usize() - first.as_usize()) >> self.stride2()
    }
}

/// The place of the first start entry of a mode.
pub(crate) fn mode_place(mode: Anchored) -> usize
    ensures value { result ≡ mode_place (mode_of mode) }
    ensures bound { result < 2 ^ 34 }
{
    match mode {
        Anchored::No => 0,
        Anchored::Yes => 6,
        Anchored::Pattern(pattern) => 12 + 6 * pattern.as_usize(),
    }
}

/// The place of a start context among the six start entries of a mode.
pub(crate) fn context_number(start: Start) -> usize
    ensures value { result ≡ context_number start }
    ensures bound { result < 6 }
{
    match start {
        Start::NonWordByte => 0,
        Start::WordByte => 1,
        Start::Text => 2,
        Start::LineLF => 3,
        Start::LineCR => 4,
        Start::CustomLineTerminator => 5,
    }
}
