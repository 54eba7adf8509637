//! What tables tell: what their builds tell, and what their copies tell.

ghost use Rattle.rx_meaning.specs.Tables.{EndByTables, FoundByTables, HalfOfCopy, HalfOfTable, HalfUnsplitOfCopy};
ghost use Rattle.rx_meaning.specs.Tables.{HalfUnsplitOfTable, IterateOfCopies, IterateOfTables, JoinOfCopies};
ghost use Rattle.rx_meaning.specs.Tables.{JoinOfTables, OverlappingOfCopy, OverlappingOfTable};
ghost use Rattle.rx_meaning.specs.Tables.{OverlappingUnsplitOfCopy, OverlappingUnsplitOfTable, TablesAgree};

/// A half search over a table that gives a build answers what the build's powerset machine answers.
pub fn half_of_table()
    ensures { HalfOfTable }
{}

/// An overlapping search over it tells what the powerset machine tells.
pub fn overlapping_of_table()
    ensures { OverlappingOfTable }
{}

/// The same where matches that split a character are passed over.
pub fn unsplit_of_table()
    ensures half { HalfUnsplitOfTable }
    ensures overlapping { OverlappingUnsplitOfTable }
{}

/// Whole matches, one and all: what two builds answer, joined.
pub fn join_of_tables()
    ensures join { JoinOfTables }
    ensures iterate { IterateOfTables }
{}

/// Two tables that give a plan's builds answer what its expressions say, tell a match for each end that
/// is met, and never disagree.
pub fn plan_by_tables()
    ensures found { FoundByTables }
    ensures end { EndByTables }
    ensures agree { TablesAgree }
{}

/// Two tables that tell the same of every word answer every half and every overlapping search alike.
pub fn half_of_copy()
    ensures half { HalfOfCopy }
    ensures overlapping { OverlappingOfCopy }
    ensures half_unsplit { HalfUnsplitOfCopy }
    ensures overlapping_unsplit { OverlappingUnsplitOfCopy }
{}

/// And whole matches, one and all.
pub fn join_of_copies()
    ensures join { JoinOfCopies }
    ensures iterate { IterateOfCopies }
{}
