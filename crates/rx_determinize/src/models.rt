//! The template rows with which the rows of other states begin.

ghost use Rattle.std.specs.Prelude.{◌≡◌, length, replicate, None};
ghost use Rattle.rx_determinize.specs.Models.{kept_in, model_row};

use std::marker::Model;

/// How many templates there can be: one for each set of facts about the last unit.
const CONTEXTS: usize = 32;

/// For each set of facts about the last unit, the row of a state that steps on every column as the lead-in's rows do
/// alone. Most states do so on most columns, so their rows begin as copies of this one.
#[derive(Drop)]
pub(crate) struct Models {
    rows: [Option<usize>; 32],
    ghost len: { length rows ≡ 32 },
}

impl Model for Models {
    ghost use Rattle.std.specs.Prelude.{ℕ, List, Option};

    ghost Value = { List (Option ℕ) };

    ghost view = { λ m. m.rows };
}

impl Models {
    /// No templates.
    pub(crate) fn new() -> Models
        ensures { result ≡ replicate 32 None }
    {
        Models {
            rows: [None; CONTEXTS],
        }
    }

    /// The template row for states that end with the lead-in, in this context. For states that don't end with the
    /// lead-in it is the dead row.
    pub(crate) fn row(&self, led_in: Option<u8>) -> Option<usize>
        ensures { result ≡ model_row self.now led_in }
    {
        let Some(context) = led_in else {
            return Some(0);
        };
        match self.rows.get(context as usize) {
            Some(row) => *row,
            None => None,
        }
    }

    /// Keeps a row as a template.
    pub(crate) fn keep(&mut self, led_in: Option<u8>, row: usize)
        ensures { self.new ≡ kept_in self.old led_in row }
    {
        if let Some(context) = led_in {
            if (context as usize) < self.rows.len() {
                self.rows[context as usize] = Some(row);
            }
        }
    }
}
