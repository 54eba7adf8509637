//! Laws of what searches find: with the tables of a plan, with tables that are read from its images, and with pairs
//! that are built by other settings.
//!
//! Each function has an empty body, and its clauses are the laws.

ghost use Rattle.rx_regex.specs.Find.{PlansFindTheSame};
ghost use Rattle.rx_regex.specs.Images.{AllTablesServe, ImagePairsFind};
ghost use Rattle.rx_regex.specs.Planned.{PairsAgree, PairsEnd, PairsFind, PairsServe};

/// Take a pair that a [`crate::Builder`] makes leftmost-first, reading forward, without UTF-8 mode. It finds the
/// leftmost match, as a plan's tables do. If its forward search reports an end, even the first one that it reads, the
/// pair reports a match with this end. Its errors are those of the forward search.
pub fn planned_pairs_find()
    ensures found { PairsFind }
    ensures end { PairsEnd }
    ensures agree { PairsAgree }
{}

/// Such a pair serves its plan, so the laws of `rx_meaning` on tables that serve a plan apply to it.
pub fn planned_pairs_serve()
    ensures { PairsServe }
{}

/// Two plans with the same line terminator find the same match of the same expressions in the same input.
pub fn plans_find_the_same()
    ensures { PlansFindTheSame }
{}

/// The tables that are read from an image of a plan's pair find what the plan and its expressions define. So a program
/// that has only the image finds what [`crate::compile_and_find`] finds.
pub fn image_pairs_find()
    ensures { ImagePairsFind }
{}

/// A plan's table for all matches serves the build of all matches, so the law of `rx_meaning::all` applies to it: what
/// it reports from a place are all matches of the expressions from there.
pub fn all_tables_serve()
    ensures { AllTablesServe }
{}
