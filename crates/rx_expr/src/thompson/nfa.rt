//! The NFA: its states, which are called rows, and its starts.

ghost use Rattle.std.specs.Prelude.{◌≡◌, ℕ, ◌||◌, ◌==◌, ◌<◌, ◌≤◌, not, [], ◌∷◌, length, slice_get, map, false, IfErr};
ghost use Rattle.std.specs.Prelude.{IfOk};
ghost use Rattle.rx_spec.specs.Bytes.{contains};
ghost use Rattle.rx_spec.specs.Contexts.{facts_kept, row_reads};
ghost use Rattle.rx_spec.specs.declared.Direction.TheVariants.{Forward};
ghost use Rattle.rx_spec.specs.Nfas.{always_match, is_always_start_anchored, never_match};
ghost use Rattle.rx_spec.specs.Shallow.{IsShallow};
ghost use Rattle.rx_base.specs.LookSet.{holds_look};
ghost use Rattle.rx_expr.specs.NfaRows.{row_of, asserts, has_look, rows_part, EndsClasses, HoldsLooks, IsShallow-prop};
ghost use Rattle.rx_expr.specs.NfaRows.{NamesPatterns};

use super::build_error::BuildError;
use super::classes::byte_class_set;
use rx_base::{
    ByteClassSet, ByteSet, Direction, Facts, Look, LookMatcher, LookSet, PatternID, StateID,
};
use std::alloc::{AllocError, Global};

/// A state of an NFA.
#[derive(Clone, Copy, Debug)]
pub enum Row {
    /// Reads a byte of a set and goes on to another state.
    Bytes {
        /// The bytes that it reads.
        set: ByteSet,
        /// The state that follows.
        next: StateID,
    },
    /// Goes on to two states without reading a byte. The first is preferred.
    Split {
        /// The preferred state.
        first: StateID,
        /// The other state.
        second: StateID,
    },
    /// Goes on without reading a byte if an assertion holds.
    Look {
        /// The assertion.
        look: Look,
        /// The state that follows.
        next: StateID,
    },
    /// A match of a pattern.
    Match {
        /// The pattern.
        pattern: PatternID,
    },
    /// Goes on to no state.
    Fail,
}

/// The NFA that [`super::Compiler`] makes of expressions.
#[derive(Drop)]
pub struct NFA {
    pub(super) rows: Vec<Row>,
    pub(super) start_anchored: StateID,
    pub(super) start_unanchored: StateID,
    pub(super) start_patterns: Vec<StateID>,
    pub(super) direction: Direction,
    pub(super) look_matcher: LookMatcher,
    pub(super) has_empty: bool,
    pub(super) utf8: bool,
    /// The facts about a neighbouring byte that some assertion asks for.
    pub(super) asked: Facts,
    /// The assertions that the states have.
    pub(super) look_set_any: LookSet,
    /// The bytes that some state distinguishes from the next byte.
    pub(super) byte_class_set: ByteClassSet,
    ghost facts_are: { asked ≡ facts_kept (map row_of rows.items) },
    ghost looks_are: { HoldsLooks look_set_any (map row_of rows.items) },
    ghost classes_are: { EndsClasses byte_class_set look_matcher (map row_of rows.items) },

    // Each match row names one of the patterns that have starts.
    pub ghost patterns: { NamesPatterns (length start_patterns.items) (map row_of rows.items) },

    // No path that reads nothing goes round, so a closure of rows ends.
    pub ghost shallow: { IsShallow (map row_of rows.items) } by { IsShallow-prop (map row_of rows.items) },
}

/// The facts about a neighbouring byte that some assertion of the states asks for.
pub(super) fn asked_facts(rows: &[Row]) -> Facts
    ensures { result ≡ facts_kept (map row_of rows.now) }
{
    let mut asked = Facts::none();
    for row in rows {
        asked = asked.union(row.asked_facts());
    }
    asked
}

/// The assertions that the states have.
pub(super) fn look_set_any(rows: &[Row]) -> LookSet
    ensures { (look : Look) → holds_look result look ≡ has_look (map row_of rows.now) look }
{
    let mut looks = LookSet::empty();
    for row in rows {
        looks = row.insert_into(looks);
    }
    looks
}

impl Row {
    /// The set with the state's assertion, if it has one.
    fn insert_into(&self, looks: LookSet) -> LookSet
        ensures { (look : Look) → holds_look result look ≡ (holds_look looks look || asserts look (row_of self.now)) }
    {
        match *self {
            Row::Look { look, .. } => looks.insert(look),
            _ => looks,
        }
    }

    /// The facts about a neighbouring byte that its assertion asks for.
    fn asked_facts(&self) -> Facts
        ensures { result ≡ row_reads (row_of self.now) }
    {
        match *self {
            Row::Look { look, .. } => Facts::asked_by(look),
            _ => Facts::none(),
        }
    }
}

impl NFA {
    ghost use Rattle.rx_expr.specs.Nfa.{meaning};
    ghost use Rattle.rx_expr.specs.Settings.{is_reverse};

    /// The NFA of one pattern that matches the empty string everywhere.
    pub fn always_match(alloc: Global) -> Result<NFA, BuildError>
        ensures ok { IfOk result (λ nfa. meaning nfa ≡ always_match) }
        ensures err { IfErr result (λ e. e ≡ BuildError.Memory) }
    {
        let pattern = PatternID::ZERO;
        NFA::of_row(alloc, Row::Match { pattern }, &[StateID::ZERO]).map_err(|_| BuildError::Memory)
    }

    /// The NFA of no pattern.
    pub fn never_match(alloc: Global) -> Result<NFA, BuildError>
        ensures ok { IfOk result (λ nfa. meaning nfa ≡ never_match) }
        ensures err { IfErr result (λ e. e ≡ BuildError.Memory) }
    {
        NFA::of_row(alloc, Row::Fail, &[]).map_err(|_| BuildError::Memory)
    }

    /// An NFA of one state, in which every search starts, with the start states of its patterns.
    fn of_row(alloc: Global, row: Row, start_patterns: &[StateID]) -> Result<NFA, AllocError>
        requires shallow { IsShallow (row_of row ∷ []) }
        requires patterns { NamesPatterns (length start_patterns.now) (row_of row ∷ []) }
        ensures { IfOk result (λ nfa. meaning nfa ≡ record {
          rows = row_of row ∷ [];
          start_anchored = 0;
          start_unanchored = 0;
          start_patterns = start_patterns.now;
          direction = Forward;
          line_terminator = 10;
          has_empty = not (length start_patterns.now == 0);
          is_utf8 = false;
        }) }
    {
        let rows = vec![in alloc; row]?;
        let asked = asked_facts(&rows);
        let look_set_any = look_set_any(&rows);
        let byte_class_set = byte_class_set(&rows, b'\n');
        Ok(NFA {
            rows,
            start_anchored: StateID::ZERO,
            start_unanchored: StateID::ZERO,
            start_patterns: start_patterns.to_vec(alloc)?,
            direction: Direction::Forward,
            look_matcher: LookMatcher::new(b'\n'),
            has_empty: !start_patterns.is_empty(),
            utf8: false,
            asked,
            look_set_any,
            byte_class_set,
        })
    }

    /// The states, by id.
    pub fn rows(&self) -> &[Row]
        ensures { map row_of result.now ≡ (meaning self.now).rows }
    {
        &self.rows
    }

    /// The start state of an anchored search.
    pub fn start_anchored(&self) -> StateID
        ensures { result ≡ (meaning self.now).start_anchored }
    {
        self.start_anchored
    }

    /// The start state of an unanchored search.
    pub fn start_unanchored(&self) -> StateID
        ensures { result ≡ (meaning self.now).start_unanchored }
    {
        self.start_unanchored
    }

    /// The start state of an anchored search of one pattern, or `None` if there is no such pattern.
    pub fn start_pattern(&self, pid: PatternID) -> Option<StateID>
        ensures { result ≡ slice_get (meaning self.now).start_patterns pid }
    {
        self.start_patterns.get(pid.as_usize()).copied()
    }

    /// The number of patterns.
    pub fn pattern_len(&self) -> usize
        ensures { result ≡ length (meaning self.now).start_patterns }
    {
        self.start_patterns.len()
    }

    /// The direction in which it reads the haystack.
    pub fn direction(&self) -> Direction
        ensures { result ≡ (meaning self.now).direction }
    {
        self.direction
    }

    /// Whether it reads the haystack in reverse.
    pub fn is_reverse(&self) -> bool
        ensures { result ≡ is_reverse (meaning self.now).direction }
    {
        matches!(self.direction, Direction::Reverse)
    }

    /// The line terminator of the assertions.
    pub fn line_terminator(&self) -> u8
        ensures { result ≡ (meaning self.now).line_terminator }
    {
        self.look_matcher.get_line_terminator()
    }

    /// The matcher that decides the assertions.
    pub fn look_matcher(&self) -> &LookMatcher
        ensures { result.now ≡ (meaning self.now).line_terminator }
    {
        &self.look_matcher
    }

    /// The assertions that some state has.
    pub fn look_set_any(&self) -> LookSet
        ensures { (look : Look) → holds_look result look ≡ has_look (meaning self.now).rows look }
    {
        self.look_set_any
    }

    /// The bytes that some state distinguishes from the next byte. Each of them ends a byte class.
    pub fn byte_class_set(&self) -> &ByteClassSet
        ensures { (b : ℕ) → b < 255
            → contains result.now b ≡ rows_part (meaning self.now).line_terminator (meaning self.now).rows b }
    {
        &self.byte_class_set
    }

    /// The facts about a neighbouring byte that some assertion asks for.
    pub fn asked_facts(&self) -> Facts
        ensures { result ≡ facts_kept (meaning self.now).rows }
    {
        self.asked
    }

    /// Whether some pattern can match the empty string.
    pub fn has_empty(&self) -> bool
        ensures { result ≡ (meaning self.now).has_empty }
    {
        self.has_empty
    }

    /// Whether searches pass over matches that split a character of UTF-8.
    pub fn is_utf8(&self) -> bool
        ensures { result ≡ (meaning self.now).is_utf8 }
    {
        self.utf8
    }

    /// Whether every match begins at the edge at which reading begins. The anchored and the unanchored start are then
    /// one state.
    pub fn is_always_start_anchored(&self) -> bool
        ensures { result ≡ is_always_start_anchored (meaning self.now) }
    {
        self.start_anchored == self.start_unanchored
    }
}
