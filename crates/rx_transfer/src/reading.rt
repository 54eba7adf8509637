//! Reading from a source through a buffer.

ghost use Rattle.std.specs.Prelude.{◌≡◌, ◌<◌, ◌≤◌, ◌+◌, ◌++◌, ℕ, List, length, take, true, false, IfOk, Err};
ghost use Rattle.std.specs.Io.KnownBytes.{Consumes, IsAtEnd};
ghost use Rattle.rx_base.specs.Outside.{Rose};
ghost use Rattle.rx_base.specs.Source.{Reads, ReadCause};

use rx_base::{ReadAnswer, Source};
use std::alloc::{AllocError, Global};

/// The most bytes that are read at once.
pub const CHUNK: usize = 65_536;

/// Why the bytes of a source couldn't be read.
#[derive(Clone, Copy, Debug, PartialEq, Eq)]
pub enum ReadFault {
    /// A read failed.
    Failed,
    /// Memory ran out.
    Memory,
}

impl From<AllocError> for ReadFault {
    ghost use Rattle.std.specs.Prelude.{◌≡◌};
    ghost use Rattle.rx_transfer.specs.declared.reading.ReadFault.TheVariants.{Memory};

    ghost from_gives = { λ _ e. e ≡ Memory };

    fn from(_: AllocError) -> ReadFault {
        ReadFault::Memory
    }
}

/// Why a source wasn't read to its end.
#[derive(Clone, Copy, Debug, PartialEq, Eq)]
pub enum TextFault {
    /// It has more bytes than were allowed.
    Long,
    /// A read failed.
    Failed,
    /// Memory ran out.
    Memory,
}

impl From<ReadFault> for TextFault {
    ghost use Rattle.std.specs.Prelude.{◌≡◌};
    ghost use Rattle.rx_transfer.specs.Faults.{text_fault};

    ghost from_gives = { λ fault e. e ≡ text_fault fault };

    fn from(fault: ReadFault) -> TextFault {
        match fault {
            ReadFault::Failed => TextFault::Failed,
            ReadFault::Memory => TextFault::Memory,
        }
    }
}

impl From<AllocError> for TextFault {
    ghost use Rattle.std.specs.Prelude.{◌≡◌};
    ghost use Rattle.rx_transfer.specs.declared.reading.TextFault.TheVariants.{Memory};

    ghost from_gives = { λ _ e. e ≡ Memory };

    fn from(_: AllocError) -> TextFault {
        TextFault::Memory
    }
}

/// A buffer for reads of at most [`CHUNK`] bytes.
pub fn new_buffer(alloc: Global) -> Result<Vec<u8>, AllocError>
    ensures { IfOk result (λ buffer. length buffer.items ≡ 65536) }
{
    vec![in alloc; 0; CHUNK]
}

/// Reads at most `room` bytes into the front of a buffer.
pub fn read_front<S: Source>(src: &mut S, buffer: &mut [u8], room: usize) -> ReadAnswer
    requires some { 0 < room }
    requires within { room ≤ length buffer.old }
    ensures bytes { Reads (S.left src.old) (S.left src.new) result (take room buffer.new) }
    ensures cause { ReadCause (S.faults src.old) (S.faults src.new) result }
{
    src.read(&mut buffer[..room])
}

/// Reads on through a buffer until a text has `most` bytes. Returns whether the source ended before.
///
/// If a read fails, the text has what was read before.
pub fn read_up_to<S: Source>(
    src: &mut S,
    buffer: &mut [u8],
    text: &mut Vec<u8>,
    most: usize,
) -> Result<bool, ReadFault>
    requires some { 0 < length buffer.old }
    requires fits { length text.old.items ≤ most }
    ensures few { IfOk result (λ ended. length text.new.items ≤ most) }
    ensures bytes { IfOk result (λ ended. (read : List ℕ) × (text.new.items ≡ text.old.items ++ read)
        × Consumes (S.left src.old) (S.left src.new) read) }
    ensures end { IfOk result (λ ended. ended ≡ true → IsAtEnd (S.left src.new)) }
    ensures short { IfOk result (λ ended. ended ≡ true → length text.new.items < most) }
    ensures whole { IfOk result (λ ended. ended ≡ false → length text.new.items ≡ most) }
    ensures cut { result ≡ Err ReadFault.Failed → (read : List ℕ) × (text.new.items ≡ text.old.items ++ read)
        × (length text.new.items < most) × Consumes (S.left src.old) (S.left src.new) read }
    ensures starved { result ≡ Err ReadFault.Memory → (read : List ℕ) × (length text.old.items + length read ≤ most)
        × Consumes (S.left src.old) (S.left src.new) read }
    ensures failed { result ≡ Err ReadFault.Failed → Rose (S.faults src.old) (S.faults src.new) }
    ensures counted { S.faults src.old ≤ S.faults src.new }
    // The buffer keeps its length.
    ensures buffer { length buffer.new ≡ length buffer.old }
{
    'reads: while text.len() < most {
        let room = buffer.len().min(most - text.len());
        match read_front(src, buffer, room) {
            ReadAnswer::Got(count) => text.extend_from_slice(&buffer[..count])?,
            ReadAnswer::End => return Ok(true),
            ReadAnswer::Failed => return Err(ReadFault::Failed),
        }
    }
    Ok(false)
}
