//! What a builder does with a table.

ghost use Rattle.std.specs.Prelude.{◌≡◌, ◌<◌, ◌≤◌, ◌+◌, ◌*◌, ◌^◌, length, replicate, Some, None, if◌then◌else◌};
ghost use Rattle.std.specs.Prelude.{◌==◌, ◌↔◌, Err, IfOk, IfSome, OnErr, OnOk};
ghost use Rattle.std.specs.List.{list_all};
ghost use Rattle.rx_spec.specs.Contexts.{all_starts};
ghost use Rattle.rx_spec.specs.Causes.{max_id};
ghost use Rattle.rx_spec.specs.Ids.{row_of};
ghost use Rattle.rx_spec.specs.Classes.{stride2_of};
ghost use Rattle.rx_base.specs.ByteClasses.{AreClasses, alphabet_len};
ghost use Rattle.rx_base.specs.Search.{mode_of};
ghost use Rattle.rx_base.specs.Unit.{unit_number};
ghost use Rattle.rx_search.specs.Starts.{IsId};
ghost use Rattle.rx_dense.specs.Builder.{common_start, contexts_of, initial, with_next, with_row, with_start};
ghost use Rattle.rx_dense.specs.Builder.{HasUniversalStarts, with_universal_starts};
ghost use Rattle.rx_dense.specs.Layouts.{column, context_number, ids_of, mode_place, start_entries, start_id};
ghost use Rattle.rx_dense.specs.Layouts.{table_of};

use crate::dfa::{context_number, mode_place};
use crate::{Accels, AddError, DFA, Flags, OwnedDFA, Special, WordStore};
use rx_base::{
    Anchored, ByteClasses, ByteSet, LookMatcher, Start, StartByteMap, StartKind, StateID, Unit,
};
use std::alloc::{AllocError, Global};

/// A row that leads to dead, as long as the greatest stride.
const EMPTY_ROW: [u32; 512] = [0; 512];

/// All start contexts, in the order of their entries.
const STARTS: [Start; 6] = [
    Start::NonWordByte,
    Start::WordByte,
    Start::Text,
    Start::LineLF,
    Start::LineCR,
    Start::CustomLineTerminator,
];

/// A row of so many words that leads to dead.
fn empty_row(stride: usize) -> &'static [u32]
    requires { stride ≤ 512 }
    ensures { result.now ≡ replicate stride 0 }
{
    &EMPTY_ROW[..stride]
}

impl DFA<Vec<u32>> {
    /// A table with the dead row and the quit row, which lead to dead, and with start entries that are dead. There
    /// are no match rows, and no special rows are named.
    pub fn initial(
        alloc: Global,
        classes: ByteClasses,
        pattern_len: usize,
        starts: StartKind,
        lookm: &LookMatcher,
        pattern_starts: bool,
        quitset: ByteSet,
        flags: Flags,
    ) -> Result<OwnedDFA, AllocError>
        requires { pattern_len ≤ 2147483647 }
        ensures { IfOk result (λ dfa. dfa ≡ initial (record {
          classes = classes;
          pattern_len = pattern_len;
          start_kind = starts;
          line_terminator = lookm.now;
          pattern_starts = pattern_starts;
          quit = quitset;
          flags = flags;
        })) }
    {
        let own_starts = own_starts(pattern_starts, pattern_len);
        Ok(DFA {
            words: zeros(alloc, two_rows(&classes))?,
            stride2: classes.stride2(),
            classes,
            special: Special::new(),
            starts: zeros(alloc, start_entries(own_starts))?,
            start_kind: starts,
            contexts: contexts(lookm),
            pattern_starts: own_starts,
            universal_unanchored: None,
            universal_anchored: None,
            slices: Vec::new(alloc),
            pattern_ids: Vec::new(alloc),
            marks: Vec::new(alloc),
            pattern_len,
            accels: Vec::new(alloc),
            quitset,
            flags,
        })
    }

    /// Adds a last row, which leads to dead on every unit, and gives its id. Where it is refused, the table is as
    /// before.
    pub fn add_empty_state(&mut self) -> Result<StateID, AddError>
        ensures ok { IfOk result (λ id. (id ≡ length self.old.words) × (self.new ≡ with_row self.old)) }
        ensures is_id { IfOk result (λ id. IsId (ids_of self.new) id) }
        ensures fits { OnOk result (length self.old.words ≤ max_id) }
        ensures err { OnErr result (self.new ≡ self.old) }
        ensures too_many { (result ≡ Err AddError.TooManyStates) ↔ (max_id < length self.old.words) }
    {
        let len = self.words().len();
        if len > StateID::MAX.as_usize() {
            return Err(AddError::TooManyStates);
        }
        let row = empty_row(self.stride());
        self.marks.clear();
        match self.words.extend_from_slice(row) {
            Ok(()) => {}
            Err(_) => return Err(AddError::Memory),
        }
        Ok(StateID::must(len))
    }

    /// Lets a unit, and each unit of its column, lead from a row to another.
    pub fn set_transition(&mut self, from: StateID, unit: Unit, to: StateID)
        requires from { IsId (ids_of self.old) from }
        requires to { IsId (ids_of self.old) to }
        ensures { self.new ≡ with_next self.old from (unit_number unit) to }
    {
        let column = self.column(unit);
        self.marks.clear();
        self.words[from.as_usize() + column] = to.as_u32();
    }

    /// Lets searches of a mode that find a context start in a row. A pattern must have starts of its own.
    pub fn set_start_state(&mut self, anchored: Anchored, start: Start, id: StateID)
        requires is_id { IsId (ids_of self.old) id }
        requires has_starts { mode_place (mode_of anchored) < length self.old.starts }
        ensures { self.new ≡ with_start self.old (mode_of anchored) start id }
    {
        let place = mode_place(anchored) + context_number(start);
        self.starts[place] = id.as_u32();
    }

    /// Sets the universal start of an unanchored and of an anchored search: the row in which it starts whatever stands
    /// beside its span. There is none where two start entries differ, or where there are no starts for the search.
    pub fn set_universal_starts(&mut self)
        ensures value { self.new ≡ with_universal_starts self.old }
        ensures rows { HasUniversalStarts (table_of self.new) }
    {
        let unanchored = self.common_start(&Anchored::No);
        let anchored = self.common_start(&Anchored::Yes);
        self.universal_unanchored = if self.start_kind.has_unanchored() {
            unanchored
        } else {
            None
        };
        self.universal_anchored = if self.start_kind.has_anchored() {
            anchored
        } else {
            None
        };
    }

    /// Sets which rows are special.
    pub fn set_special(&mut self, special: Special)
        ensures { self.new ≡ record self.old { special = special } }
    {
        self.marks.clear();
        self.special = special;
    }

    /// Sets the needles of the accelerated rows, in their order.
    pub fn set_accels(&mut self, accels: Accels)
        ensures { self.new ≡ record self.old { accels = accels } }
    {
        self.accels = accels.into_words();
    }
}

impl<T: WordStore> DFA<T> {
    /// The column of a unit.
    #[inline]
    pub(crate) fn column(&self, unit: Unit) -> usize
        ensures value { result ≡ column self.now (unit_number unit) }
        ensures within { result < alphabet_len self.now.classes }
    {
        match unit {
            Unit::Byte(byte) => self.byte_classes().get(byte) as usize,
            Unit::Eoi => self.alphabet_len() - 1,
        }
    }

    /// The start row that all contexts of a mode have, where no two have different ones.
    fn common_start(&self, mode: &Anchored) -> Option<StateID>
        ensures { result ≡ common_start (start_id self.now (mode_of mode.now)) }
    {
        let first = self.start(*mode, Start::NonWordByte);
        if self.starts_at(mode, first) {
            Some(first)
        } else {
            None
        }
    }

    /// Whether a row is the start row of all contexts of a mode.
    fn starts_at(&self, mode: &Anchored, id: StateID) -> bool
        ensures { result ≡ list_all (λ start. start_id self.now (mode_of mode.now) start == id) all_starts }
    {
        STARTS.iter().all(|start| self.start(*mode, *start) == id)
    }
}

/// So many zeros.
fn zeros(alloc: Global, len: usize) -> Result<Vec<u32>, AllocError>
    ensures { IfOk result (λ zeros. zeros.items ≡ replicate len 0) }
{
    vec![in alloc; 0; len]
}

/// How many words the dead row and the quit row take.
fn two_rows(classes: &ByteClasses) -> usize
    ensures value { result ≡ 2 * 2 ^ stride2_of (alphabet_len classes.now) }
    ensures are_classes { AreClasses classes.now }
{
    let alphabet_len = classes.alphabet_len();
    let stride = 1 << classes.stride2();
    prove!(alphabet_len <= stride);
    2 * stride
}

/// How many patterns have starts of their own.
fn own_starts(pattern_starts: bool, pattern_len: usize) -> Option<usize>
    requires { pattern_len ≤ 2147483647 }
    ensures value { result ≡ (if pattern_starts then Some pattern_len else None) }
    ensures bound { IfSome result (λ n. n ≤ 2147483647) }
{
    if pattern_starts {
        Some(pattern_len)
    } else {
        None
    }
}

/// How many start entries there are, where so many patterns have starts of their own.
fn start_entries(own_starts: Option<usize>) -> usize
    requires { IfSome own_starts (λ n. n ≤ 2147483647) }
    ensures { result ≡ start_entries own_starts }
{
    match own_starts {
        None => 12,
        Some(patterns) => 12 + 6 * patterns,
    }
}

/// The start context of each byte, under the line terminator of a matcher.
fn contexts(lookm: &LookMatcher) -> [Start; 256]
    ensures { result ≡ contexts_of lookm.now }
{
    let map = StartByteMap::new(lookm);
    let mut contexts = [Start::NonWordByte; 256];
    for byte in 0..256 {
        contexts[byte] = map.get(byte as u8);
    }
    contexts
}
