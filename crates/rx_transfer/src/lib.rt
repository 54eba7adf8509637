//! What the commands share: reading from a source, writing to a sink, and words of their lines.
//!
//! [`read_up_to`] reads a text on to a length, and [`write_text`] writes a text whole, or up to where the sink fails.
//! `specs/Words.antt` defines the words.
#![tactic(auto)]

ghost use Rattle.std.specs.Prelude.{◌≡◌, ◌≤◌, true, false};
ghost use Rattle.std.specs.Io.KnownBytes.{Appends};
ghost use Rattle.rx_base.specs.Outside.{Rose};
ghost use Rattle.rx_transfer.specs.Outside.{AppendsFront};

mod reading;

pub use reading::{CHUNK, ReadFault, TextFault, new_buffer, read_front, read_up_to};
use rx_base::{Sink, WriteAnswer};

/// Writes a text. Returns whether the sink took all of it.
pub fn write_text<K: Sink>(out: &mut K, text: &[u8]) -> bool
    ensures whole { result ≡ true → Appends (K.written out.old) (K.written out.new) text.now }
    ensures part { result ≡ false → AppendsFront (K.written out.old) (K.written out.new) text.now }
    ensures failed { result ≡ false → Rose (K.faults out.old) (K.faults out.new) }
    ensures counted { K.faults out.old ≤ K.faults out.new }
{
    let mut at = 0;
    'writes: while at < text.len() {
        match out.write(&text[at..]) {
            WriteAnswer::Took(count) => at += count,
            WriteAnswer::Failed => return false,
        }
    }
    true
}
