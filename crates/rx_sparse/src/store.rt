//! Where a table's bytes are kept.

ghost use Rattle.std.specs.Prelude.{◌≡◌, ℕ, List};

/// A list of bytes, owned or borrowed. Contracts see a store as that list.
pub trait ByteStore: Drop {
    ghost list: { Self → List ℕ };

    /// The bytes.
    fn bytes(&self) -> &[u8]
        ensures { result.now ≡ list self.now };
}

impl ByteStore for Vec<u8> {
    ghost list = { λ s. s.items };

    #[inline(always)]
    fn bytes(&self) -> &[u8] {
        self.as_slice()
    }
}

impl ByteStore for &[u8] {
    ghost list = { λ s. s.now };

    #[inline(always)]
    fn bytes(&self) -> &[u8] {
        self
    }
}
