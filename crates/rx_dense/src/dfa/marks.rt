//! What searches ask of match rows, made ahead: their first patterns, and whether a search may end there.

ghost use Rattle.std.specs.Prelude.{◌≡◌, ℕ, ◌+◌, ◌*◌, ◌^◌, ◌<◌, ◌==◌, length, slice_index, IfOk, IfSome};
ghost use Rattle.std.specs.Prelude.{IsTrue, true};
ghost use Rattle.std.specs.List.{list_all};
ghost use Rattle.rx_base.specs.ByteClasses.{alphabet_len};
ghost use Rattle.rx_spec.specs.Ids.{row_of};
ghost use Rattle.rx_spec.specs.Tables.{is_match};
ghost use Rattle.rx_search.specs.Labels.{IsFinal, patterns_of};
ghost use Rattle.rx_search.specs.Starts.{IsId};
ghost use Rattle.rx_dense.specs.Facts.{IsSoundLayout};
ghost use Rattle.rx_dense.specs.Layouts.{ids_of, stride, table_of};
ghost use Rattle.rx_dense.specs.Marks.{AreMarks, IsMark};

use crate::{DFA, OwnedDFA, WordStore};
use rx_base::{PatternID, StateID};
use std::alloc::AllocError;

/// What a mark has beside the pattern where a search may end at the row.
const FINAL: u32 = 1 << 31;

impl DFA<Vec<u32>> {
    /// The same table, which keeps one word for each match state: its first pattern, and whether a search may end
    /// there. Searches read this word in place of the lists. A later change of states or patterns drops the words.
    ///
    /// If memory runs out, the table is dropped.
    pub fn with_marks(self) -> Result<OwnedDFA, AllocError>
        ensures { IfOk result (λ dfa. dfa ≡ self) }
    {
        let marks = self.made_marks()?;
        let mut dfa = self;
        dfa.marks = marks;
        Ok(dfa)
    }

    /// The marks of all match rows. There are none where the first match row is no row, as in an image by a stranger.
    fn made_marks(&self) -> Result<Vec<u32>, AllocError>
        ensures { let l = self.now in IfOk result (λ marks. AreMarks l.words (alphabet_len l.classes) (stride l)
            l.special.min_match l.slices l.pattern_ids marks.items) }
    {
        let alloc = *self.slices.allocator();
        if self.special.min_match.as_usize() % self.stride() != 0 {
            return Ok(Vec::new(alloc));
        }
        let count = self.slices().len() / 2;
        let mut marks = Vec::with_capacity(alloc, count)?;
        for place in 0..count {
            marks.push(self.made_mark(place))?;
        }
        Ok(marks)
    }

    /// The mark of a match row, by its place among them.
    fn made_mark(&self, place: usize) -> u32
        requires { 2 * place + 1 < length self.now.slices }
        ensures { let l = self.now in IsMark l.words (alphabet_len l.classes) (stride l)
            l.special.min_match l.slices l.pattern_ids place result }
    {
        let start = self.slices()[2 * place] as usize;
        let pattern = match self.pattern_ids().get(start) {
            Some(pattern) if *pattern <= PatternID::MAX.as_u32() => *pattern,
            _ => 0,
        };
        if self.is_dead_end(place) {
            pattern + FINAL
        } else {
            pattern
        }
    }

    /// Whether each column of a match row leads to the dead row.
    fn is_dead_end(&self, place: usize) -> bool
        requires { place < 2 ^ 32 }
        ensures { let l = self.now in IsTrue result → (column : ℕ) → column < alphabet_len l.classes
            → slice_index l.words (l.special.min_match + place * stride l + column) ≡ 0 }
    {
        let first = self.special.min_match.as_usize() + place * self.stride();
        match self.words().get(first..first + self.alphabet_len()) {
            Some(row) => are_dead(row),
            None => false,
        }
    }
}

/// Whether all ids are that of the dead row.
fn are_dead(ids: &[u32]) -> bool
    ensures { result ≡ list_all (λ id. id == 0) ids.now }
{
    ids.iter().all(|id| *id == 0)
}

impl<T: WordStore> DFA<T> {
    /// The first pattern of a match row, and whether a search may end there, where marks are made.
    #[inline(always)]
    pub(crate) fn mark(&self, id: StateID) -> Option<(PatternID, bool)>
        requires sound { IsSoundLayout self.now }
        requires is_id { IsId (ids_of self.now) id }
        requires is_match { is_match (table_of self.now) (row_of (ids_of self.now) id) ≡ true }
        ensures first { IfSome result (λ mark.
            mark.0 ≡ slice_index (patterns_of (table_of self.now) (row_of (ids_of self.now) id)) 0) }
        ensures ends { IfSome result (λ mark. IsTrue mark.1
            → IsFinal (table_of self.now) (row_of (ids_of self.now) id)) }
    {
        let place = self.place_in_range(self.special().min_match, id);
        match self.marks.words().get(place) {
            Some(mark) => Some((PatternID::must((*mark % FINAL) as usize), *mark >= FINAL)),
            None => None,
        }
    }
}
