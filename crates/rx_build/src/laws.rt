//! What a built table reports.
//!
//! The function has an empty body, and its clause is the law.

ghost use Rattle.rx_spec.specs.Nfas.{Nfa};
ghost use Rattle.rx_dense.specs.Layouts.{Layout, table_of};
ghost use Rattle.rx_meaning.specs.Tables.{Serves};
ghost use Rattle.rx_build.specs.Built.{IsBuilt, build_of};
ghost use Rattle.rx_build.specs.Settings.{Settled};

/// A built table answers every search as the powerset machine of its build does.
#[tactic(auto, using(crate::proofs::Served::built_serves))]
pub fn built_tables_serve()
    ensures { (s : Settled) (nfa : Nfa) (l : Layout) → IsBuilt s nfa l → Serves (table_of l) (build_of s nfa) }
{}
