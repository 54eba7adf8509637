//! Laws of the definitions: what a reader expects of them, proved.
//!
//! Each function has an empty body, and its clauses are the laws. They are spelled out in the files
//! of `specs/` whose names end in `Laws`.

ghost use Rattle.rx_laws.specs.EndsLaws.{AssertionsForward, AssertionsInReverse, EndsAreReached, EndsLie};
ghost use Rattle.rx_laws.specs.EndsLaws.{EndsOfAlternate, EndsOfAssertionThatFails, EndsOfAssertionThatHolds};
ghost use Rattle.rx_laws.specs.EndsLaws.{EndsOfByteInClass, EndsOfByteOutsideClass, EndsOfClassPastLast, EndsOfConcat};
ghost use Rattle.rx_laws.specs.EndsLaws.{EndsOfEmpty, EndsOfGreedyRound, EndsOfLazyRound, EndsOfNeededRound};
ghost use Rattle.rx_laws.specs.EndsLaws.{EndsOfNoRounds, EndsOfUnboundedGreedy, EndsOfUnboundedLazy, MirrorEnds};
ghost use Rattle.rx_laws.specs.EndsLaws.{MirrorMinLen, MirrorMirrored};
ghost use Rattle.rx_laws.specs.FoundLaws.{AdmittedTests, FoundIsCandidate, FoundIsLeftmost, FoundIsPreferred};
ghost use Rattle.rx_laws.specs.FoundLaws.{FoundNothing, FoundWhenDone};
ghost use Rattle.rx_laws.specs.RowsLaws.{CountOfAlternate, CountOfAssertion, CountOfBounded, CountOfClass};
ghost use Rattle.rx_laws.specs.RowsLaws.{CountOfConcat, CountOfEmpty, CountOfUnbounded, PatternsCounted, RowsCounted};
ghost use Rattle.rx_laws.specs.RowsLaws.{RowsOfAlternate, RowsOfAssertion, RowsOfClass, RowsOfConcat, RowsOfEmpty};
ghost use Rattle.rx_laws.specs.RowsLaws.{RowsOfLoop, RowsOfNeededRound, RowsOfNoRounds, RowsOfOptionalRound};
ghost use Rattle.rx_laws.specs.RowsLaws.{RowsOfPattern, SplitOfGreedy, SplitOfLazy, StartOfMore, StartOfNone};
ghost use Rattle.rx_laws.specs.RowsLaws.{StartOfOne};
ghost use Rattle.rx_laws.specs.StatesLaws.{ClosureOfBytes, ClosureOfFail, ClosureOfFailing, ClosureOfHolding};
ghost use Rattle.rx_laws.specs.StatesLaws.{ClosureOfMatch, ClosureOfSplit, ClosureOfStanding, DeadStaysDead};
ghost use Rattle.rx_laws.specs.StatesLaws.{DroppedOfBoth, DroppedOfLast, EndMarkEnds, FactsDecide, FirstsKeepMembers};
ghost use Rattle.rx_laws.specs.StatesLaws.{FirstsKeepOrder, FirstsOfDistinct, FirstsRepeatNothing, OthersStep};
ghost use Rattle.rx_laws.specs.StatesLaws.{QuitByteQuits, QuitLeadsToDead, StartKnows, StepOfDead, TellsAll, TellsOne};
ghost use Rattle.rx_laws.specs.ClassesLaws.{ClassesAreCoarse, ClassesBegin, ClassesLead, ClassesOfAll, ClassesRise};
ghost use Rattle.rx_laws.specs.ClassesLaws.{ColumnsAreBelow, ColumnsAreUsed, ColumnsLead, LastColumn};
ghost use Rattle.rx_laws.specs.ClassesLaws.{RepresentativeIsLeast, RepresentativeOfClass, RepresentativesCounted};
ghost use Rattle.rx_laws.specs.ClassesLaws.{RepresentativesRise, StrideHolds, StrideIsLeast, StrideIsWithin};
ghost use Rattle.rx_laws.specs.BuildsLaws.{ExceedsExactly, GivesEachWord, LeastIsOne, ReachedCount, TooCostlyExactly};
ghost use Rattle.rx_laws.specs.BuildsLaws.{TooLargeExactly, TooLongRowsExactly, TooManyPatternsExactly};
ghost use Rattle.rx_laws.specs.BuildsLaws.{TooManyStatesExactly};
ghost use Rattle.rx_laws.specs.TablesLaws.{BetweenNeedles, DenseId, DenseIds, IdOfRow, LeavingExactly, LeavingRises};
ghost use Rattle.rx_laws.specs.TablesLaws.{RowOfId, SameAsItself, SameHalfSearch, SameIsSound, SameIsTable};
ghost use Rattle.rx_laws.specs.TablesLaws.{SameOverlapping, SamePassedOn, SameTurned, StrayAnchored, StrayUnanchored};
ghost use Rattle.rx_laws.specs.SearchesLaws.{DoneTellsNothing, HalfLiesIn, HalfOfOverlapping, HalfOfOverlappingInBuild};
ghost use Rattle.rx_laws.specs.SearchesLaws.{JoinIsOrderly, MatchesAgain, MatchesLie, MatchesRise, MatchesUncut};
ghost use Rattle.rx_laws.specs.SearchesLaws.{RefusedByByte, RefusedByMode, RemainsAfterCall, RemainsAfterRow};
ghost use Rattle.rx_laws.specs.SearchesLaws.{RemainsAtMatch, SplitsAgain, SplitsUncut, UnsplitAgain, UnsplitLiesIn};

/// Where the matches of each form of expression end, in the order in which a backtracking matcher
/// such as Perl's tries them.
pub fn ends_by_form()
    ensures empty { EndsOfEmpty }
    ensures byte_in_class { EndsOfByteInClass }
    ensures byte_outside_class { EndsOfByteOutsideClass }
    ensures class_past_last { EndsOfClassPastLast }
    ensures assertion_that_holds { EndsOfAssertionThatHolds }
    ensures assertion_that_fails { EndsOfAssertionThatFails }
    ensures concat { EndsOfConcat }
    ensures alternate { EndsOfAlternate }
{}

/// A repetition's ends, by one round at a time: what must be matched comes first, then a greedy one
/// prefers a further round, and a lazy one prefers to stop.
pub fn ends_of_repetitions()
    ensures needed_round { EndsOfNeededRound }
    ensures no_rounds { EndsOfNoRounds }
    ensures greedy_round { EndsOfGreedyRound }
    ensures lazy_round { EndsOfLazyRound }
    ensures unbounded_greedy { EndsOfUnboundedGreedy }
    ensures unbounded_lazy { EndsOfUnboundedLazy }
{}

/// An assertion tests the byte before a place and the byte after it, whichever way the haystack is
/// read.
pub fn assertions()
    ensures forward { AssertionsForward }
    ensures in_reverse { AssertionsInReverse }
{}

/// A match has at least the least length of its expression, and ends within the haystack.
pub fn ends_lie()
    ensures { EndsLie }
{}

/// The ends are those of the language that the expression denotes: preference orders them, and adds
/// and loses none.
pub fn ends_are_reached()
    ensures { EndsAreReached }
{}

/// The mirror of an expression denotes the language read from its other end.
pub fn mirrors()
    ensures mirrored { MirrorMirrored }
    ensures min_len { MirrorMinLen }
    ensures ends { MirrorEnds }
{}

/// A match may begin within the span, and anchored only at its start.
pub fn admitted_tests()
    ensures { AdmittedTests }
{}

/// A search finds the leftmost match, there that of the lowest pattern, and of it the preferred one;
/// and nothing exactly where nothing matches.
pub fn found_leftmost_first()
    ensures candidate { FoundIsCandidate }
    ensures leftmost { FoundIsLeftmost }
    ensures preferred { FoundIsPreferred }
    ensures nothing { FoundNothing }
    ensures done { FoundWhenDone }
{}

/// The rows of each form of expression, as Thompson's construction makes them.
pub fn rows_by_form()
    ensures empty { RowsOfEmpty }
    ensures class { RowsOfClass }
    ensures assertion { RowsOfAssertion }
    ensures concat { RowsOfConcat }
    ensures alternate { RowsOfAlternate }
    ensures greedy { SplitOfGreedy }
    ensures lazy { SplitOfLazy }
{}

/// A repetition's rows, by one round at a time.
pub fn rows_of_repetitions()
    ensures needed_round { RowsOfNeededRound }
    ensures no_rounds { RowsOfNoRounds }
    ensures optional_round { RowsOfOptionalRound }
    ensures without_end { RowsOfLoop }
{}

/// How many rows an expression has.
pub fn rows_counted()
    ensures counted { RowsCounted }
    ensures empty { CountOfEmpty }
    ensures class { CountOfClass }
    ensures assertion { CountOfAssertion }
    ensures concat { CountOfConcat }
    ensures alternate { CountOfAlternate }
    ensures bounded { CountOfBounded }
    ensures unbounded { CountOfUnbounded }
{}

/// The rows of several patterns, and the start that they share.
pub fn rows_of_patterns()
    ensures pattern { RowsOfPattern }
    ensures counted { PatternsCounted }
    ensures none { StartOfNone }
    ensures one { StartOfOne }
    ensures more { StartOfMore }
{}

/// What a state remembers of the unit read last is enough to decide every assertion of its rows.
pub fn contexts_decide()
    ensures decide { FactsDecide }
    ensures dropped_of_last { DroppedOfLast }
    ensures dropped_of_both { DroppedOfBoth }
    ensures start { StartKnows }
{}

/// First occurrences keep the members of a list and their order, and repeat nothing.
pub fn first_occurrences()
    ensures members { FirstsKeepMembers }
    ensures distinct { FirstsRepeatNothing }
    ensures order { FirstsKeepOrder }
    ensures itself { FirstsOfDistinct }
{}

/// What a row reaches without reading a byte, by its kind: the closure of the subset construction, in
/// the order of preference.
pub fn closures_by_row()
    ensures bytes { ClosureOfBytes }
    ensures match_row { ClosureOfMatch }
    ensures fail { ClosureOfFail }
    ensures split { ClosureOfSplit }
    ensures standing { ClosureOfStanding }
    ensures holding { ClosureOfHolding }
    ensures failing { ClosureOfFailing }
{}

/// What a unit leads to, and what is told then.
pub fn steps()
    ensures quit_byte { QuitByteQuits }
    ensures other { OthersStep }
    ensures end_mark { EndMarkEnds }
    ensures leftmost_first { TellsOne }
    ensures all { TellsAll }
{}

/// Where nothing goes on, nothing is told any more.
pub fn dead_is_final()
    ensures step { StepOfDead }
    ensures stays { DeadStaysDead }
    ensures quit { QuitLeadsToDead }
{}

/// Byte classes are runs of bytes, numbered from 0 on, and as coarse as the places where they end allow.
pub fn byte_classes()
    ensures begin { ClassesBegin }
    ensures rise { ClassesRise }
    ensures coarse { ClassesAreCoarse }
    ensures all { ClassesOfAll }
{}

/// A table has a column for each class, and the last one for the end mark.
pub fn columns()
    ensures below { ColumnsAreBelow }
    ensures used { ColumnsAreUsed }
    ensures last { LastColumn }
{}

/// The representatives of the classes are their least bytes.
pub fn representatives_of_classes()
    ensures rise { RepresentativesRise }
    ensures counted { RepresentativesCounted }
    ensures of_class { RepresentativeOfClass }
    ensures least { RepresentativeIsLeast }
{}

/// The stride is the least power of two that holds the alphabet.
pub fn strides()
    ensures holds { StrideHolds }
    ensures least { StrideIsLeast }
    ensures within { StrideIsWithin }
{}

/// Bytes of one class lead every node of the powerset machine to one node: that is why they may share a
/// column.
pub fn classes_lead()
    ensures classes { ClassesLead }
    ensures columns { ColumnsLead }
{}

/// How many states are reached is one number, and a size that only grows with the states passes a limit with
/// some of them exactly where it does with all.
pub fn states_counted()
    ensures count { ReachedCount }
    ensures exceeds { ExceedsExactly }
    ensures too_many_states { TooManyStatesExactly }
    ensures too_many_patterns { TooManyPatternsExactly }
    ensures too_long_rows { TooLongRowsExactly }
    ensures too_large { TooLargeExactly }
    ensures too_costly { TooCostlyExactly }
{}

/// What it is that a table gives a build, and that the least number of its rows is one number.
pub fn gives_and_least()
    ensures each_word { GivesEachWord }
    ensures least { LeastIsOne }
{}

/// A table whose universal start is past its rows is none.
pub fn stray_starts()
    ensures unanchored { StrayUnanchored }
    ensures anchored { StrayAnchored }
{}

/// Tables that agree on all that has a meaning are interchangeable.
pub fn same_tables()
    ensures itself { SameAsItself }
    ensures turned { SameTurned }
    ensures passed_on { SamePassedOn }
    ensures table { SameIsTable }
    ensures sound { SameIsSound }
    ensures half_search { SameHalfSearch }
    ensures overlapping { SameOverlapping }
{}

/// Between the needles of an accelerated row nothing happens, so a search may skip to the next one.
pub fn needles()
    ensures exactly { LeavingExactly }
    ensures rise { LeavingRises }
    ensures between { BetweenNeedles }
{}

/// Rows and their ids name each other.
pub fn ids()
    ensures row { RowOfId }
    ensures id { IdOfRow }
    ensures dense { DenseIds }
    ensures multiples { DenseId }
{}

/// A search that isn't done is refused by the byte beside its span, and else by its mode.
pub fn starts_refused()
    ensures by_byte { RefusedByByte }
    ensures by_mode { RefusedByMode }
    ensures done { DoneTellsNothing }
{}

/// A half search tells the first pattern of the last match row that the overlapping search comes to.
pub fn half_searches()
    ensures of_table { HalfOfOverlapping }
    ensures of_build { HalfOfOverlappingInBuild }
{}

/// What remains of an overlapping search, from one call to the next.
pub fn remaining_matches()
    ensures at_match { RemainsAtMatch }
    ensures after_call { RemainsAfterCall }
    ensures after_row { RemainsAfterRow }
{}

/// A search that passes over matches inside a character is cut off by nothing.
pub fn splits_passed_over()
    ensures uncut { SplitsUncut }
    ensures again { SplitsAgain }
    ensures unsplit { UnsplitAgain }
{}

/// What searches tell lies in the span of their query.
pub fn told_in_span()
    ensures half { HalfLiesIn }
    ensures unsplit { UnsplitLiesIn }
    ensures joined { JoinIsOrderly }
{}

/// The matches that an iterator gives: none is cut off, they lie in the span, rise, and don't overlap.
pub fn matches_in_order()
    ensures uncut { MatchesUncut }
    ensures again { MatchesAgain }
    ensures lie { MatchesLie }
    ensures rise { MatchesRise }
{}
