//! Reading all of a source.

ghost use Rattle.std.specs.Prelude.{◌≡◌, ◌<◌, ◌≤◌, ◌++◌, ℕ, List, length, IfOk, Err};
ghost use Rattle.std.specs.Io.KnownBytes.{Consumes, IsAtEnd};
ghost use Rattle.rx_base.specs.Outside.{Rose};

use rx_base::Source;
use rx_transfer::{TextFault, read_up_to};

/// The most bytes that are read.
pub const LIMIT: usize = 16_777_216;

/// Reads all bytes that are left to the end of a text, unless it then has more than [`LIMIT`].
pub fn read_rest<S: Source>(
    src: &mut S,
    buffer: &mut [u8],
    text: &mut Vec<u8>,
) -> Result<(), TextFault>
    requires some { 0 < length buffer.old }
    requires fits { length text.old.items ≤ 16777217 }
    ensures few { IfOk result (λ done. length text.new.items ≤ 16777216) }
    ensures bytes { IfOk result (λ done. (read : List ℕ) × (text.new.items ≡ text.old.items ++ read)
        × Consumes (S.left src.old) (S.left src.new) read) }
    ensures end { IfOk result (λ done. IsAtEnd (S.left src.new)) }
    ensures long { result ≡ Err TextFault.Long → (read : List ℕ) × (length (text.old.items ++ read) ≡ 16777217)
        × Consumes (S.left src.old) (S.left src.new) read }
    ensures failed { result ≡ Err TextFault.Failed → Rose (S.faults src.old) (S.faults src.new) }
    ensures counted { S.faults src.old ≤ S.faults src.new }
{
    if text.len() <= LIMIT && read_up_to(src, buffer, text, LIMIT + 1)? {
        return Ok(());
    }
    Err(TextFault::Long)
}
