//! Which bytes the states of an NFA distinguish.

ghost use Rattle.std.specs.Prelude.{◌≡◌, ℕ, ◌+◌, ◌<◌, ◌||◌, map};
ghost use Rattle.rx_spec.specs.Bytes.{contains};
ghost use Rattle.rx_spec.specs.Classes.{facts_part, row_parts};
ghost use Rattle.rx_spec.specs.Contexts.{facts_read};
ghost use Rattle.rx_expr.specs.NfaRows.{row_of, EndsClasses};

use super::nfa::Row;
use rx_base::{ByteClassSet, Look};

/// The bytes that some state distinguishes from the next byte.
pub(super) fn byte_class_set(rows: &[Row], line_terminator: u8) -> ByteClassSet
    ensures { EndsClasses result line_terminator (map row_of rows.now) }
{
    let mut classes = ByteClassSet::empty();
    for row in rows {
        row.add_to_classes(line_terminator, &mut classes);
    }
    classes
}

impl Row {
    /// Marks the bytes that the state distinguishes from the next byte.
    fn add_to_classes(&self, line_terminator: u8, classes: &mut ByteClassSet)
        ensures { (b : ℕ) → b < 255 → contains classes.new b
            ≡ (contains classes.old b || row_parts line_terminator b (b + 1) (row_of self.now)) }
    {
        match *self {
            Row::Bytes { set, .. } => classes.add_set(&set),
            Row::Look { look, .. } => add_look(look, line_terminator, classes),
            _ => {}
        }
    }
}

/// Marks the bytes that an assertion distinguishes from the next byte.
fn add_look(look: Look, line_terminator: u8, classes: &mut ByteClassSet)
    ensures { (b : ℕ) → b < 255 → contains classes.new b
        ≡ (contains classes.old b || facts_part line_terminator (facts_read look) b (b + 1)) }
{
    match look {
        Look::Start | Look::End => {}
        Look::StartLF | Look::EndLF => classes.set_range(line_terminator, line_terminator),
        Look::StartCRLF | Look::EndCRLF => {
            classes.set_range(b'\n', b'\n');
            classes.set_range(b'\r', b'\r');
        }
        _ => {
            classes.set_range(b'0', b'9');
            classes.set_range(b'A', b'Z');
            classes.set_range(b'_', b'_');
            classes.set_range(b'a', b'z');
        }
    }
}
