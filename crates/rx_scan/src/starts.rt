//! The start states of tokens.

ghost use Rattle.std.specs.Prelude.{◌≡◌, ◌≤◌, length};
ghost use Rattle.rx_spec.specs.declared.Direction.TheVariants.{Forward};
ghost use Rattle.rx_search.specs.Starts.{StartsSearch};
ghost use Rattle.rx_meaning.specs.AllMatches.{query_at};
ghost use Rattle.rx_scan.specs.Starts.{AreStarts};

use rx_base::{Anchored, Input, MatchError, StateID};
use rx_search::Automaton;
use std::marker::Model;

/// The start state of a token after each byte, for the bytes that occurred; 0 for the others.
///
/// Contracts see it as the list of the 256 ids.
#[derive(Drop)]
pub(crate) struct Starts {
    ids: [StateID; 256],
    ghost len: { length ids ≡ 256 },
}

impl Model for Starts {
    ghost use Rattle.std.specs.Prelude.{ℕ, List};

    ghost Value = { List ℕ };

    ghost view = { λ s. s.ids };
}

impl Starts {
    ghost use Rattle.std.specs.Prelude.{replicate};

    /// No start states.
    pub(crate) fn new() -> Starts
        ensures { result ≡ replicate 256 0 }
    {
        Starts {
            ids: [StateID::ZERO; 256],
        }
    }

    /// The start state of a token at a place of a text.
    #[inline(always)]
    pub(crate) fn at<A: Automaton>(
        &mut self,
        table: &A,
        text: &[u8],
        from: usize,
    ) -> Result<StateID, MatchError>
        requires within { from ≤ length text.now }
        requires starts { AreStarts (A.table table.now) (A.ids table.now) self.old }
        ensures starts { AreStarts (A.table table.now) (A.ids table.now) self.new }
        ensures start { StartsSearch (A.table table.now) (A.ids table.now) Forward (query_at text.now from) result }
    {
        if from == 0 {
            return start_at(table, text, from);
        }
        let byte = text[from - 1] as usize;
        let kept = self.ids[byte];
        if kept != StateID::ZERO {
            return Ok(kept);
        }
        match start_at(table, text, from) {
            Ok(id) => {
                self.ids[byte] = id;
                Ok(id)
            }
            Err(error) => Err(error),
        }
    }
}

/// The start state of an anchored search at a place of a text.
fn start_at<A: Automaton>(table: &A, text: &[u8], from: usize) -> Result<StateID, MatchError>
    requires within { from ≤ length text.now }
    ensures { StartsSearch (A.table table.now) (A.ids table.now) Forward (query_at text.now from) result }
{
    let input = Input::new(text)
        .range(from, text.len())
        .anchored(Anchored::Yes);
    table.start_state_forward(&input)
}
