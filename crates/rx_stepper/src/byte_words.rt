//! Sets of bytes as words.

ghost use Rattle.std.specs.Prelude.{◌≡◌, ◌%◌, ◌^◌};
ghost use Rattle.rx_spec.specs.Bytes.{contains};
ghost use Rattle.rx_stepper.specs.ByteWords.{set_of_words};

use rx_base::ByteSet;

/// A set of bytes as four words of 64 bits, so that one shift tests a byte.
#[derive(Clone, Copy)]
pub(crate) struct ByteWords {
    words: [u64; 4],
}

impl ByteWords {
    /// The words of a set.
    pub(crate) fn new(set: &ByteSet) -> ByteWords
        ensures { set_of_words result.words ≡ set.now }
    {
        let (low, high) = set.halves();
        ByteWords {
            words: [
                lower(low),
                (low >> 64) as u64,
                lower(high),
                (high >> 64) as u64,
            ],
        }
    }

    /// Whether a byte is in the set.
    #[inline]
    pub(crate) fn contains(&self, byte: u8) -> bool
        ensures { result ≡ contains (set_of_words self.now.words) byte }
    {
        (self.words[usize::from(byte / 64)] >> (byte % 64)) & 1 == 1
    }
}

/// The lower half of a number.
fn lower(number: u128) -> u64
    ensures { result ≡ number % 2 ^ 64 }
{
    (number % 0x1_0000_0000_0000_0000) as u64
}
