//! Finds the rows of a table that behave alike, by Hopcroft's refinement.
//!
//! A table has rows, units that lead from each row to a next row, and a label for each row. Two rows behave alike if
//! every word of units leads from both to rows with equal labels. [`refine`] returns the number of each row's block;
//! two rows have one number exactly if they behave alike. It reads the table only by the lists of rows that lead to a
//! row ([`Incoming`]). Each read is counted ([`Steps`]), and the count is bounded: at most twice the units times the
//! rows times the number of binary digits of the number of rows.
//!
//! `specs/Moves.antt` has the definitions. Start with [`refine`], whose body is the algorithm. `partition.rt` has the
//! blocks as ranges of one permuted vector, `keys.rt` and `numbers.rt` process many blocks at once, `columns.rt`
//! transposes a table, and `groups.rt` groups rows by counting.
#![tactic(auto)]

mod columns;
mod groups;
mod hopcroft;
mod keys;
pub mod laws;
mod lists;
mod numbers;
mod partition;
mod table;

pub use hopcroft::refine;
pub use lists::Incoming;
pub use rx_spec::Steps;
