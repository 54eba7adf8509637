//! Worked examples: small questions whose answers the definitions compute.
//!
//! Each function has an empty body, and each of its clauses is an example, which is proved by computing
//! it. They are spelled out in the files of `specs/` whose names end in `Examples`, each with the pattern in
//! the usual notation; `specs/Samples.antt` has what they share.

ghost use Rattle.rx_laws.specs.AssertionExamples.{EndCRLFPlaces, EndLFPlaces, EndPlaces, StartCRLFPlaces};
ghost use Rattle.rx_laws.specs.AssertionExamples.{StartLFPlaces, StartPlaces, WordEndHalfPlaces, WordEndPlaces};
ghost use Rattle.rx_laws.specs.AssertionExamples.{WordNegatePlaces, WordPlaces, WordStartHalfPlaces, WordStartPlaces};
ghost use Rattle.rx_laws.specs.ExpressionExamples.{EndsInOrder, EndsInReverse, MirrorOfText, NothingAtEnd};
ghost use Rattle.rx_laws.specs.ExpressionExamples.{NumbersOfMany, SafeLoop, UnsafeLoop};
ghost use Rattle.rx_laws.specs.FoundExamples.{EachDate, EachLineStart, EachPlace, EachWord, GreedyRounds, LazyRounds};
ghost use Rattle.rx_laws.specs.FoundExamples.{Leftmost, LetterFound, LineStartAfterBoth, LongerFirst, LongerPastSpan};
ghost use Rattle.rx_laws.specs.FoundExamples.{ManyWaysToNothing, OfEmptyPattern, OfNoPattern, OfTwoPatterns};
ghost use Rattle.rx_laws.specs.FoundExamples.{ShorterFirst, TextGoesOnPastSpan, UpToByte, WordByteThatEndsLines};
ghost use Rattle.rx_laws.specs.FoundExamples.{WordGoesOnPastSpan};
ghost use Rattle.rx_laws.specs.RowExamples.{EdgeForward, EdgeInReverse, EntriesOfLetter, RowsOfBounded, RowsOfLazyLoop};
ghost use Rattle.rx_laws.specs.RowExamples.{RowsOfLetter, RowsOfTwo};
ghost use Rattle.rx_laws.specs.ClassExamples.{AlphabetOfLetter, AlphabetOfLines, AlphabetOfRange, ClassOfLetter};
ghost use Rattle.rx_laws.specs.ClassExamples.{ClassesOfRange, ColumnsOfLetter, FactsOfWords, LeastOfLetter, QuitBytes};
ghost use Rattle.rx_laws.specs.ClassExamples.{StartContexts, StartWords};
ghost use Rattle.rx_laws.specs.StateExamples.{LabelAfterEnd, LabelAfterSpace, NoLabelAfterByte, NoLabelInWord};
ghost use Rattle.rx_laws.specs.StateExamples.{NoLabelYet, ReachedForward, ReachedInReverse};
ghost use Rattle.rx_laws.specs.SizeExamples.{SizeOfRows, SizeOfStates, SizeOfTable, SizeWithoutClasses, SparseRows};
ghost use Rattle.rx_laws.specs.SizeExamples.{SparseSize, StartEntries};
ghost use Rattle.rx_laws.specs.SearchExamples.{DoneBeforeRefused, EarliestInReverse, FitSpan, MatchEverywhere};
ghost use Rattle.rx_laws.specs.SearchExamples.{MatchNowhere, ModeRefused, NothingInReverse, NumberInReverse};
ghost use Rattle.rx_laws.specs.SearchExamples.{PatternAlone, PatternPastLast, PatternRefused, QuitAfter};
ghost use Rattle.rx_laws.specs.SearchExamples.{QuitAfterInReverse, QuitAfterMatch, QuitBefore, QuitBeforeInReverse};
ghost use Rattle.rx_laws.specs.SearchExamples.{QuitBeforeSpan, QuitNotReached, SamInReverse, UnfitSpan};
ghost use Rattle.rx_laws.specs.OverlappingExamples.{BothReported, RefusedIsNoQuit, RefusedOrQuits, ReportedTogether};
ghost use Rattle.rx_laws.specs.TableExamples.{EverywhereGives, EverywhereIsSound, EverywhereIsTable, EverywhereReads};
ghost use Rattle.rx_laws.specs.TableExamples.{FourIds, LastOfFour, NowhereGives, NowhereIsLeast, NowhereIsTable};
ghost use Rattle.rx_laws.specs.TableExamples.{RowOfEight};
ghost use Rattle.rx_laws.specs.SplitExamples.{EachByte, EachCharacter, Mismatched, SplitAllowed, SplitAnchored};
ghost use Rattle.rx_laws.specs.SplitExamples.{SplitForward, SplitInReverse, SplitLeftOut, SplitOffsets, SplitSkipped};
ghost use Rattle.rx_spec.specs.declared.Look.{Look};

/// Where each assertion holds in short haystacks.
pub fn assertions()
    ensures start { StartPlaces }
    ensures end { EndPlaces }
    ensures start_lf { StartLFPlaces }
    ensures end_lf { EndLFPlaces }
    ensures start_crlf { StartCRLFPlaces }
    ensures end_crlf { EndCRLFPlaces }
    ensures word { WordPlaces Look.WordAscii }
    ensures word_negate { WordNegatePlaces Look.WordAsciiNegate }
    ensures word_start { WordStartPlaces Look.WordStartAscii }
    ensures word_end { WordEndPlaces Look.WordEndAscii }
    ensures word_start_half { WordStartHalfPlaces Look.WordStartHalfAscii }
    ensures word_end_half { WordEndHalfPlaces Look.WordEndHalfAscii }
    ensures unicode_word { WordPlaces Look.WordUnicode }
    ensures unicode_word_negate { WordNegatePlaces Look.WordUnicodeNegate }
    ensures unicode_word_start { WordStartPlaces Look.WordStartUnicode }
    ensures unicode_word_end { WordEndPlaces Look.WordEndUnicode }
    ensures unicode_word_start_half { WordStartHalfPlaces Look.WordStartHalfUnicode }
    ensures unicode_word_end_half { WordEndHalfPlaces Look.WordEndHalfUnicode }
{}

/// The least length, the depth and the mirror of an expression, and its ends in the order of
/// preference.
pub fn expressions()
    ensures numbers { NumbersOfMany }
    ensures mirror { MirrorOfText }
    ensures ends { EndsInOrder }
    ensures in_reverse { EndsInReverse }
    ensures at_end { NothingAtEnd }
    ensures safe_loop { SafeLoop }
    ensures unsafe_loop { UnsafeLoop }
{}

/// What is found: the leftmost match, there the lowest pattern, and of it the preferred end.
pub fn preference()
    ensures two_patterns { OfTwoPatterns }
    ensures no_pattern { OfNoPattern }
    ensures empty_pattern { OfEmptyPattern }
    ensures letter { LetterFound }
    ensures longer_first { LongerFirst }
    ensures shorter_first { ShorterFirst }
    ensures longer_past_span { LongerPastSpan }
    ensures leftmost { Leftmost }
    ensures greedy { GreedyRounds }
    ensures lazy { LazyRounds }
    ensures up_to_byte { UpToByte }
    ensures many_ways { ManyWaysToNothing }
{}

/// What is found where assertions read the bytes beside a span.
pub fn found_beside()
    ensures word_byte_that_ends_lines { WordByteThatEndsLines }
    ensures line_start { LineStartAfterBoth }
    ensures text_goes_on { TextGoesOnPastSpan }
    ensures word_goes_on { WordGoesOnPastSpan }
{}

/// The rows of small NFAs, and where searches of the text's edge begin.
pub fn rows()
    ensures letter { RowsOfLetter }
    ensures entries { EntriesOfLetter }
    ensures two { RowsOfTwo }
    ensures bounded { RowsOfBounded }
    ensures lazy_loop { RowsOfLazyLoop }
    ensures edge_forward { EdgeForward }
    ensures edge_in_reverse { EdgeInReverse }
{}

/// Byte classes, with and without which a byte has a column, and the alphabet with its end mark.
pub fn classes()
    ensures range { ClassesOfRange }
    ensures alphabet { AlphabetOfRange }
    ensures lines { AlphabetOfLines }
    ensures letter { ClassOfLetter }
    ensures alphabet_of_letter { AlphabetOfLetter }
    ensures columns { ColumnsOfLetter }
    ensures least { LeastOfLetter }
{}

/// The quit set in effect, start contexts and the facts that are kept.
pub fn quit_set_and_contexts()
    ensures quit { QuitBytes }
    ensures starts { StartContexts }
    ensures words { StartWords }
    ensures facts { FactsOfWords }
{}

/// A match is told by the next unit, so an assertion at its end is decided by then.
pub fn labels()
    ensures not_yet { NoLabelYet }
    ensures after_end { LabelAfterEnd }
    ensures after_byte { NoLabelAfterByte }
    ensures after_space { LabelAfterSpace }
    ensures in_word { NoLabelInWord }
{}

/// The states of the powerset machine of a single letter.
pub fn reached_states()
    ensures forward { ReachedForward }
    ensures in_reverse { ReachedInReverse }
{}

/// The sizes of that machine and of its dense tables.
pub fn sizes()
    ensures rows { SizeOfRows }
    ensures states { SizeOfStates }
    ensures starts { StartEntries }
    ensures table { SizeOfTable }
    ensures without_classes { SizeWithoutClasses }
{}

/// The sizes of the rows of a sparse table.
pub fn sparse_sizes()
    ensures rows { SparseRows }
    ensures all { SparseSize }
{}

/// Searches in reverse from an end.
pub fn halves_in_reverse()
    ensures number { NumberInReverse }
    ensures sam { SamInReverse }
    ensures nothing { NothingInReverse }
    ensures earliest { EarliestInReverse }
{}

/// Spans that fit, searches that are done, and searches whose mode has no starts.
pub fn refusals()
    ensures fit { FitSpan }
    ensures unfit { UnfitSpan }
    ensures done { DoneBeforeRefused }
    ensures mode { ModeRefused }
    ensures past_last { PatternPastLast }
    ensures pattern { PatternAlone }
    ensures no_pattern_starts { PatternRefused }
{}

/// Bytes that end a search, and the offsets at which it stops.
pub fn quits()
    ensures before { QuitBefore }
    ensures after { QuitAfter }
    ensures before_in_reverse { QuitBeforeInReverse }
    ensures after_in_reverse { QuitAfterInReverse }
    ensures not_reached { QuitNotReached }
    ensures after_match { QuitAfterMatch }
    ensures before_span { QuitBeforeSpan }
{}

/// Every match of an overlapping search, in the order in which it is told.
pub fn overlapping_searches()
    ensures both { BothReported }
    ensures together { ReportedTogether }
    ensures refused_or_quits { RefusedOrQuits }
    ensures refused_is_no_quit { RefusedIsNoQuit }
{}

/// The machines that match everywhere and nowhere.
pub fn fixed_machines()
    ensures everywhere { MatchEverywhere }
    ensures nowhere { MatchNowhere }
{}

/// A table of four rows for the empty expression.
pub fn tables()
    ensures is_table { EverywhereIsTable }
    ensures is_sound { EverywhereIsSound }
    ensures gives { EverywhereGives }
    ensures reads { EverywhereReads }
{}

/// A table of two rows for the class of no byte: none is smaller.
pub fn smallest_table()
    ensures is_table { NowhereIsTable }
    ensures gives { NowhereGives }
    ensures least { NowhereIsLeast }
{}

/// The ids of a small dense table.
pub fn dense_ids()
    ensures four { FourIds }
    ensures last { LastOfFour }
    ensures row { RowOfEight }
{}

/// Matches of nothing inside a character, on that table.
pub fn splits()
    ensures offsets { SplitOffsets }
    ensures forward { SplitForward }
    ensures in_reverse { SplitInReverse }
    ensures anchored { SplitAnchored }
    ensures allowed { SplitAllowed }
    ensures left_out { SplitLeftOut }
    ensures skipped { SplitSkipped }
{}

/// Two tables whose half searches are joined, and two that don't fit.
pub fn joins()
    ensures characters { EachCharacter }
    ensures bytes { EachByte }
    ensures mismatched { Mismatched }
{}

/// Each match of a haystack, one after another.
pub fn iterations()
    ensures dates { EachDate }
    ensures words { EachWord }
    ensures line_starts { EachLineStart }
    ensures places { EachPlace }
{}
