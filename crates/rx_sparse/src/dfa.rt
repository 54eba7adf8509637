//! The table.

ghost use Rattle.std.specs.Prelude.{◌≡◌, ◌<◌, ◌≤◌, ◌+◌, ◌*◌, ◌/◌, ◌^◌, get_or, length, is_some, slice_index, IfOk};
ghost use Rattle.rx_base.specs.ByteClasses.{AreClasses};
ghost use Rattle.rx_base.specs.Search.{mode_of};
ghost use Rattle.rx_spec.specs.declared.Start.TheVariants.{NonWordByte};
ghost use Rattle.rx_spec.specs.Ids.{row_of};
ghost use Rattle.rx_search.specs.Starts.{IsId};
ghost use Rattle.rx_dense.specs.Layouts.{context_number, mode_place};
ghost use Rattle.rx_sparse.specs.Layouts.{IsShaped, ids_of, memory_usage, row_at, row_count, start_id};
ghost use Rattle.rx_sparse.specs.Parts.{AreParts, stored};
ghost use Rattle.rx_sparse.specs.Rows.{rows_text};

mod automaton;

use crate::state::word_at;
use crate::{ByteStore, Parts, State};
use rx_base::{Anchored, ByteClasses, ByteSet, Start, StartKind, StateID};
use rx_dense::{Flags, Special};
use rx_wire::Order;
use std::alloc::{AllocError, Global};
use std::marker::Model;

/// A sparse table: each state has ranges of byte classes, and for each range the id of the state to which it leads.
///
/// A state's id is the offset of its first byte. Contracts see the table as a `Layout`, a record of its lists and
/// numbers, with the byte order of its numbers, for any store of the bytes.
#[derive(Drop)]
pub struct DFA<T: ByteStore> {
    parts: Parts,
    rows: T,
    starts: T,
}

impl<T: ByteStore> Model for DFA<T> {
    ghost use Rattle.rx_sparse.specs.Layouts.{Stored};
    ghost use Rattle.rx_sparse.specs.Parts.{AreParts, stored};

    ghost Value = { Stored };

    ghost view = { λ d. stored d.parts (T.list d.rows) (T.list d.starts) };

    ghost invariant = { λ d. AreParts d.parts (T.list d.rows) (T.list d.starts) };
}

impl<T: ByteStore> DFA<T> {
    /// The table of these parts and bytes. Requires that they fit each other.
    pub fn from_parts(parts: Parts, rows: T, starts: T) -> DFA<T>
        requires { AreParts parts (T.list rows) (T.list starts) }
        ensures { result ≡ stored parts (T.list rows) (T.list starts) }
    {
        DFA {
            parts,
            rows,
            starts,
        }
    }

    /// The byte order of the states and the start entries.
    pub fn order(&self) -> Order
        ensures { result ≡ self.now.order }
    {
        self.parts.order
    }

    /// For which modes the table has start states.
    pub fn start_kind(&self) -> StartKind
        ensures { result ≡ self.now.layout.start_kind }
    {
        self.parts.start_kind
    }

    /// Whether patterns have start states of their own.
    pub fn starts_for_each_pattern(&self) -> bool
        ensures { result ≡ is_some self.now.layout.pattern_starts }
    {
        self.parts.start_pattern_len.is_some()
    }

    /// The class of each byte.
    pub fn byte_classes(&self) -> &ByteClasses
        ensures value { result.now ≡ self.now.layout.classes }
        ensures are_classes { AreClasses self.now.layout.classes }
    {
        &self.parts.classes
    }

    /// The length in bytes of the states and the start entries.
    pub fn memory_usage(&self) -> usize
        ensures { result ≡ memory_usage self.now.layout }
    {
        self.rows.bytes().len() + self.starts.bytes().len()
    }

    /// The number of states.
    pub fn state_len(&self) -> usize
        ensures { result ≡ row_count self.now.layout }
    {
        self.parts.state_len
    }

    /// The quit bytes.
    pub fn quitset(&self) -> &ByteSet
        ensures { result.now ≡ self.now.layout.quit }
    {
        &self.parts.quitset
    }

    /// The flags of the patterns.
    pub fn flags(&self) -> &Flags
        ensures { result.now ≡ self.now.layout.flags }
    {
        &self.parts.flags
    }

    /// The special states.
    pub fn special(&self) -> &Special
        ensures { result.now ≡ self.now.layout.special }
    {
        &self.parts.special
    }

    /// The start context of the byte beside a span.
    pub fn start_context(&self, byte: u8) -> Start
        ensures { result ≡ get_or self.now.layout.contexts byte NonWordByte }
    {
        self.parts.contexts[byte as usize]
    }

    /// The number of patterns with start states of their own, if there are such.
    pub fn start_pattern_len(&self) -> Option<usize>
        ensures { result ≡ self.now.layout.pattern_starts }
    {
        self.parts.start_pattern_len
    }

    /// The universal starts: the start state of an unanchored and of an anchored search if it is the same for each byte
    /// beside the span.
    pub fn universal_starts(&self) -> (Option<StateID>, Option<StateID>)
        ensures unanchored { result.0 ≡ self.now.layout.universal_unanchored }
        ensures anchored { result.1 ≡ self.now.layout.universal_anchored }
        ensures shaped { IsShaped self.now.layout }
    {
        (
            self.parts.universal_unanchored,
            self.parts.universal_anchored,
        )
    }

    /// The same table, borrowed.
    pub fn as_ref(&self) -> DFA<&[u8]>
        ensures { result ≡ self.now }
    {
        DFA {
            parts: self.parts,
            rows: self.rows.bytes(),
            starts: self.starts.bytes(),
        }
    }

    /// The same table in new memory.
    pub fn to_owned(&self, alloc: Global) -> Result<DFA<Vec<u8>>, AllocError>
        ensures { IfOk result (λ dfa. dfa ≡ self.now) }
    {
        Ok(DFA {
            parts: self.parts,
            rows: Vec::from_slice(alloc, self.rows.bytes())?,
            starts: Vec::from_slice(alloc, self.starts.bytes())?,
        })
    }

    /// The state with this id, decoded.
    #[inline(always)]
    pub fn state(&self, id: StateID) -> State<'_>
        requires { IsId (ids_of self.now.layout) id }
        ensures value { result ≡ row_at self.now.layout (row_of (ids_of self.now.layout) id) }
        ensures shaped { IsShaped self.now.layout }
    {
        let (_, bytes) = self.rows.bytes().split_at(id.as_usize());
        State::at(self.parts.order, bytes)
    }

    /// The bytes of the states.
    #[inline(always)]
    pub fn row_bytes(&self) -> &[u8]
        ensures { result.now ≡ rows_text self.now.order self.now.layout.rows }
    {
        self.rows.bytes()
    }

    /// The number of start entries: six for an unanchored search, one for each context, six for an anchored one, and
    /// six for each pattern with start states of its own.
    pub fn start_len(&self) -> usize
        ensures value { result ≡ length self.now.layout.starts }
        ensures shaped { IsShaped self.now.layout }
    {
        self.starts.bytes().len() / 4
    }

    /// The start entry at an index.
    pub fn start_at(&self, i: usize) -> StateID
        requires { i < length self.now.layout.starts }
        ensures { result ≡ slice_index self.now.layout.starts i }
    {
        StateID::must(word_at(self.parts.order, self.starts.bytes(), i) as usize)
    }

    /// The start state of a mode and a context. A pattern without start states of its own starts at the dead state.
    pub(crate) fn start(&self, mode: Anchored, start: Start) -> StateID
        ensures value { result ≡ start_id self.now.layout (mode_of mode) start }
        ensures is_id { IsId (ids_of self.now.layout) result }
    {
        let first = mode_place(mode);
        if first >= self.start_len() {
            return StateID::ZERO;
        }
        self.start_at(first + context_number(start))
    }
}

/// The index of the first start entry of a mode.
fn mode_place(mode: Anchored) -> usize
    ensures value { result ≡ mode_place (mode_of mode) }
    ensures bound { result < 2 ^ 34 }
{
    match mode {
        Anchored::No => 0,
        Anchored::Yes => 6,
        Anchored::Pattern(pattern) => 12 + 6 * pattern.as_usize(),
    }
}

/// The index of a start context among the six start entries of a mode.
fn context_number(start: Start) -> usize
    ensures value { result ≡ context_number start }
    ensures bound { result < 6 }
{
    match start {
        Start::NonWordByte => 0,
        Start::WordByte => 1,
        Start::Text => 2,
        Start::LineLF => 3,
        Start::LineCR => 4,
        Start::CustomLineTerminator => 5,
    }
}
