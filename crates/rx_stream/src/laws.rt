//! Laws of searchers. Each function has an empty body, and its clauses are the laws.

ghost use Rattle.rx_stream.specs.Cuttings.{CutTellsNow, CutTellsWhole, DeadTellsNothing, FirstIsEarliest};
ghost use Rattle.rx_stream.specs.Cuttings.{NowIsFront, QuitIsLast, QuitTellsNoMore};

/// However a text is cut into pieces, all calls together report what an overlapping search of the whole text reports.
/// The calls before its end report what is decided by then.
pub fn cuttings()
    ensures whole { CutTellsWhole }
    ensures now { CutTellsNow }
    ensures front { NowIsFront }
{}

/// Nothing is reported after a quit byte, nor from the dead state.
pub fn ends()
    ensures last { QuitIsLast }
    ensures no_more { QuitTellsNoMore }
    ensures dead { DeadTellsNothing }
{}

/// The first event is what a forward half search returns that may stop at the first match.
pub fn first_events()
    ensures { FirstIsEarliest }
{}
