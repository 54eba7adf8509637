//! Laws of the replies. Each function has an empty body, and its clause is the law.

ghost use Rattle.std.specs.Prelude.{ℕ, Bool, List};
ghost use Rattle.rx_main.specs.Equal.{EqualOrDiffer};
ghost use Rattle.rx_main.specs.EqualLines.{DifferLines};
ghost use Rattle.rx_main.specs.Lines.{Reply};
ghost use Rattle.rx_main.specs.Replies.{Replies, SayTheSame};
ghost use Rattle.rx_main.specs.Scan.{ScanTellsMatches};
ghost use Rattle.rx_main.specs.Search.{SearchFinds};

/// Any two replies that fit the same words and bytes are the same, with four exceptions (`SayTheSame`):
///
/// - Both say that a build is refused: any cause that holds may be named.
/// - One says that minimized sparse tables are refused because a bound of their size is exceeded. The build may succeed
///   all the same.
/// - Both are images of the table, or of both tables, that the words and the script ask for: rows of one kind may lie
///   in any order.
/// - Both say that two tables differ: any place and word at which they differ may be named.
pub fn one_reply()
    ensures { (words : List (List ℕ)) (bytes : List ℕ) (ended also_ended : Bool) (reply other : Reply)
        → Replies words bytes ended reply → Replies words bytes also_ended other
        → SayTheSame words bytes reply other }
{}

/// If `image pair` wrote the image, `search` replies what `find` replies.
pub fn search_finds()
    ensures { SearchFinds }
{}

/// If `image all` wrote the image, `scan` reports the tokens of the text by the script's expressions: each is the
/// longest match from where the one before it ended, of the lowest pattern that matches so far.
pub fn scan_tells_matches()
    ensures { ScanTellsMatches }
{}

/// Lines of `equal` for tables that differ, worked by hand.
pub fn differ_lines()
    ensures { DifferLines }
{}

/// `equal` never replies of the same two tables both that they are equal and that they differ, and it gives equal
/// tables one number of pairs.
pub fn equal_or_differ()
    ensures { EqualOrDiffer }
{}
