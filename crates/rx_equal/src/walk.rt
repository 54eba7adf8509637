//! The walk over all pairs of rows that are reached, breadth first.

ghost use Rattle.std.specs.Prelude.{◌≡◌, ◌≤◌, ◌<◌, IfOk, OnOk, None, Some, length, slice_get};
ghost use Rattle.rx_base.specs.Unit.{unit_number};
ghost use Rattle.rx_equal.specs.Classes.{Represent};
ghost use Rattle.rx_equal.specs.Evidence.{link_pair};
ghost use Rattle.rx_equal.specs.Pairs.{Adds, IsPairOf, pairs_of, rows_of};
ghost use Rattle.rx_equal.specs.Walks.{AreLabelled, AreWalked, IsLink, IsPathTo, IsVerdict, LookedAt, LookedAtAll};
ghost use Rattle.rx_equal.specs.Walks.{LookedAtMode};
ghost use Rattle.rx_base.specs.Search.{mode_of};
ghost use Rattle.rx_equal.specs.Evidence.{RowPair};
ghost use Rattle.rx_equal.specs.Partings.{IsModeOf, IsPlaceOf};
ghost use Rattle.rx_equal.specs.Walks.{AddsLink, Stepped, SteppedAll, WentOn};

use crate::classes::representatives;
use crate::pairs::{Begin, Pair, Pairs, begin_at, have_equal_labels, next_of};
use crate::places::{beside_at, mode_at, mode_count};
use crate::{Link, Links, Parting, Place, UnitList};
use rx_base::{Anchored, Unit};
use rx_search::Automaton;
use std::alloc::{AllocError, Global};

/// Whether two tables are equal, and what shows it.
#[derive(Drop)]
pub enum Verdict {
    /// Nothing parts them: links that name each reached pair once.
    Equal(Links),
    /// A place and a word part them.
    Differ(Parting),
}

/// Links and their pairs.
#[derive(Drop)]
struct Walk {
    links: Links,
    pairs: Pairs,
}

/// Compares two tables.
///
/// The answer is links that name each reached pair of rows once, or a place and a shortest word that part the tables;
/// the word is no longer than the number of reached pairs. Each table has at most 65,536 patterns. Each pair takes a
/// step for each class that both tables keep. Memory grows with the pairs, of which there may be as many as rows of
/// one table times rows of the other.
pub fn compare<A: Automaton, B: Automaton>(
    alloc: Global,
    a: &A,
    b: &B,
) -> Result<Verdict, AllocError>
    requires sound { A.IsSound a.now }
    requires other_sound { B.IsSound b.now }
    requires few { (A.table a.now).pattern_len ≤ 65536 }
    requires other_few { (B.table b.now).pattern_len ≤ 65536 }
    ensures { IfOk result (IsVerdict (A.table a.now) (B.table b.now)) }
{
    let mut walk = Walk {
        links: Links::new(alloc),
        pairs: Pairs::new(alloc),
    };
    if let Some(place) = walk.begin_all(a, b)? {
        return Ok(Verdict::Differ(Parting {
            place,
            word: UnitList::new(alloc),
        }));
    }
    let units = representatives(alloc, a, b)?;
    let mut at = 0;
    'pairs: while at < walk.pairs.len() {
        if let Some(unit) = walk.step_all(a, b, &units, at)? {
            return Ok(Verdict::Differ(walk.parting(alloc, a, b, at, unit)?));
        }
        at += 1;
    }
    Ok(Verdict::Equal(walk.links))
}

impl Walk {
    /// Adds the pairs at all places, up to one where the tables differ, which is told.
    fn begin_all<A: Automaton, B: Automaton>(
        &mut self,
        a: &A,
        b: &B,
    ) -> Result<Option<Place>, AllocError>
        requires sound { A.IsSound a.now }
        requires other_sound { B.IsSound b.now }
        requires walked { AreWalked (A.table a.now) (A.ids a.now) (B.table b.now) (B.ids b.now) self.old }
        requires labels { AreLabelled (A.table a.now) (B.table b.now)
            (pairs_of (A.ids a.now) (B.ids b.now) self.old.pairs) }
        requires few { (A.table a.now).pattern_len ≤ 65536 }
        requires other_few { (B.table b.now).pattern_len ≤ 65536 }
        ensures went_on { OnOk result
            (WentOn (A.table a.now) (A.ids a.now) (B.table b.now) (B.ids b.now) None self.old self.new) }
        ensures looked { IfOk result
            (LookedAtAll (A.table a.now) (B.table b.now) (pairs_of (A.ids a.now) (B.ids b.now) self.new.pairs)) }
    {
        for m in 0..mode_count(a, b) {
            if let Some(place) = self.begin_mode(a, b, &mode_at(m))? {
                return Ok(Some(place));
            }
        }
        Ok(None)
    }

    /// Adds the pairs at the places of a mode, up to one where the tables differ, which is told.
    fn begin_mode<A: Automaton, B: Automaton>(
        &mut self,
        a: &A,
        b: &B,
        mode: &Anchored,
    ) -> Result<Option<Place>, AllocError>
        requires sound { A.IsSound a.now }
        requires other_sound { B.IsSound b.now }
        requires walked { AreWalked (A.table a.now) (A.ids a.now) (B.table b.now) (B.ids b.now) self.old }
        requires labels { AreLabelled (A.table a.now) (B.table b.now)
            (pairs_of (A.ids a.now) (B.ids b.now) self.old.pairs) }
        requires is_mode { IsModeOf (A.table a.now) (B.table b.now) (mode_of mode.now) }
        ensures went_on { OnOk result
            (WentOn (A.table a.now) (A.ids a.now) (B.table b.now) (B.ids b.now) None self.old self.new) }
        ensures looked { IfOk result
            (LookedAtMode (A.table a.now) (B.table b.now) (mode_of mode.now)
            (pairs_of (A.ids a.now) (B.ids b.now) self.new.pairs)) }
    {
        for n in 0..257 {
            let place = Place::new(*mode, beside_at(n));
            if !self.begin_place(a, b, place)? {
                return Ok(Some(place));
            }
        }
        Ok(None)
    }

    /// Adds the pair at a place, unless the tables differ there.
    fn begin_place<A: Automaton, B: Automaton>(
        &mut self,
        a: &A,
        b: &B,
        place: Place,
    ) -> Result<bool, AllocError>
        requires sound { A.IsSound a.now }
        requires other_sound { B.IsSound b.now }
        requires walked { AreWalked (A.table a.now) (A.ids a.now) (B.table b.now) (B.ids b.now) self.old }
        requires labels { AreLabelled (A.table a.now) (B.table b.now)
            (pairs_of (A.ids a.now) (B.ids b.now) self.old.pairs) }
        requires is_place { IsPlaceOf (A.table a.now) (B.table b.now) place }
        ensures went_on { OnOk result
            (WentOn (A.table a.now) (A.ids a.now) (B.table b.now) (B.ids b.now) None self.old self.new) }
        ensures looked { IfOk result
            (LookedAt (A.table a.now) (B.table b.now) place (pairs_of (A.ids a.now) (B.ids b.now) self.new.pairs)) }
    {
        match begin_at(a, b, place) {
            Begin::Rows(pair) => {
                self.add(a, b, Link::Start(place), &pair)?;
                Ok(true)
            }
            Begin::Refused => Ok(true),
            Begin::Apart => Ok(false),
        }
    }

    /// Adds the successors of a pair by units that represent all others, up to one whose labels differ, of which the
    /// unit is told.
    fn step_all<A: Automaton, B: Automaton>(
        &mut self,
        a: &A,
        b: &B,
        units: &UnitList,
        at: usize,
    ) -> Result<Option<Unit>, AllocError>
        requires sound { A.IsSound a.now }
        requires other_sound { B.IsSound b.now }
        requires walked { AreWalked (A.table a.now) (A.ids a.now) (B.table b.now) (B.ids b.now) self.old }
        requires labels { AreLabelled (A.table a.now) (B.table b.now)
            (pairs_of (A.ids a.now) (B.ids b.now) self.old.pairs) }
        requires represent { Represent (A.table a.now) (B.table b.now) units.now }
        requires within { at < length self.old.pairs.list.items }
        ensures went_on { OnOk result
            (WentOn (A.table a.now) (A.ids a.now) (B.table b.now) (B.ids b.now) (Some at) self.old self.new) }
        ensures stepped { IfOk result (λ found. (p : RowPair)
            → slice_get (pairs_of (A.ids a.now) (B.ids b.now) self.old.pairs) at ≡ Some p
            → SteppedAll (A.table a.now) (B.table b.now) p (pairs_of (A.ids a.now) (B.ids b.now) self.new.pairs)
            found) }
    {
        let pair = self.pairs.get(at);
        for i in 0..units.len() {
            let unit = units.get(i);
            if !self.step_by(a, b, at, &pair, unit)? {
                return Ok(Some(unit));
            }
        }
        Ok(None)
    }

    /// Adds a successor of a pair, and tells whether its labels are equal.
    fn step_by<A: Automaton, B: Automaton>(
        &mut self,
        a: &A,
        b: &B,
        at: usize,
        pair: &Pair,
        unit: Unit,
    ) -> Result<bool, AllocError>
        requires sound { A.IsSound a.now }
        requires other_sound { B.IsSound b.now }
        requires walked { AreWalked (A.table a.now) (A.ids a.now) (B.table b.now) (B.ids b.now) self.old }
        requires labels { AreLabelled (A.table a.now) (B.table b.now)
            (pairs_of (A.ids a.now) (B.ids b.now) self.old.pairs) }
        requires ids { IsPairOf (A.ids a.now) (B.ids b.now) pair.now }
        requires there { slice_get (pairs_of (A.ids a.now) (B.ids b.now) self.old.pairs) at
            ≡ Some (rows_of (A.ids a.now) (B.ids b.now) pair.now) }
        requires is_unit { unit_number unit < 257 }
        ensures went_on { OnOk result
            (WentOn (A.table a.now) (A.ids a.now) (B.table b.now) (B.ids b.now) (Some at) self.old self.new) }
        ensures stepped { IfOk result (Stepped (A.table a.now) (B.table b.now)
            (rows_of (A.ids a.now) (B.ids b.now) pair.now) (unit_number unit)
            (pairs_of (A.ids a.now) (B.ids b.now) self.new.pairs)) }
    {
        let next = next_of(a, b, pair, unit);
        let link = Link::Next {
            from: at as u64,
            unit,
        };
        if !self.add(a, b, link, &next)? {
            return Ok(true);
        }
        Ok(have_equal_labels(a, b, &next))
    }

    /// Adds a link whose pair isn't there, and tells whether it wasn't.
    fn add<A: Automaton, B: Automaton>(
        &mut self,
        a: &A,
        b: &B,
        link: Link,
        pair: &Pair,
    ) -> Result<bool, AllocError>
        requires walked { AreWalked (A.table a.now) (A.ids a.now) (B.table b.now) (B.ids b.now) self.old }
        requires ids { IsPairOf (A.ids a.now) (B.ids b.now) pair.now }
        requires is_link { IsLink (A.table a.now) (B.table b.now) link }
        requires stands { link_pair (A.table a.now) (B.table b.now)
            (pairs_of (A.ids a.now) (B.ids b.now) self.old.pairs)
            link ≡ Some (rows_of (A.ids a.now) (B.ids b.now) pair.now) }
        ensures walked { OnOk result (AreWalked (A.table a.now) (A.ids a.now) (B.table b.now) (B.ids b.now) self.new) }
        ensures adds { IfOk result (λ added. Adds (pairs_of (A.ids a.now) (B.ids b.now) self.old.pairs)
            (rows_of (A.ids a.now) (B.ids b.now) pair.now) added
            (pairs_of (A.ids a.now) (B.ids b.now) self.new.pairs)) }
        ensures links { IfOk result (λ added. AddsLink self.old.links link added self.new.links) }
    {
        if !self.pairs.add(pair)? {
            return Ok(false);
        }
        self.links.push(link)?;
        Ok(true)
    }

    /// The place and the word by which a pair and then a unit were reached.
    fn parting<A: Automaton, B: Automaton>(
        &self,
        alloc: Global,
        a: &A,
        b: &B,
        at: usize,
        unit: Unit,
    ) -> Result<Parting, AllocError>
        requires walked { AreWalked (A.table a.now) (A.ids a.now) (B.table b.now) (B.ids b.now) self.now }
        requires within { at < length self.now.links }
        requires is_unit { unit_number unit < 257 }
        ensures { IfOk result (IsPathTo (A.table a.now) (B.table b.now) self.now.links
            (pairs_of (A.ids a.now) (B.ids b.now) self.now.pairs) at (unit_number unit)) }
    {
        let mut units = Vec::new(alloc);
        units.push(unit)?;
        let mut i = at;
        let place = 'links: loop {
            match self.links.get(i) {
                Link::Start(place) => break place,
                Link::Next { from, unit } => {
                    units.push(unit)?;
                    i = from as usize;
                }
            }
        };
        let mut word = UnitList::new(alloc);
        while let Some(unit) = units.pop() {
            word.push(unit)?;
        }
        Ok(Parting { place, word })
    }
}
