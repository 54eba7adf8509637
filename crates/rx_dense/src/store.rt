//! Where a table's words are kept.

ghost use Rattle.std.specs.Prelude.{◌≡◌, ℕ, List};

/// A list of words, owned or borrowed. Contracts see a store as that list.
pub trait WordStore: Drop {
    ghost list: { Self → List ℕ };

    /// The words.
    fn words(&self) -> &[u32]
        ensures { result.now ≡ list self.now };
}

impl WordStore for Vec<u32> {
    ghost list = { λ s. s.items };

    #[inline(always)]
    fn words(&self) -> &[u32] {
        self.as_slice()
    }
}

impl WordStore for &[u32] {
    ghost list = { λ s. s.now };

    #[inline(always)]
    fn words(&self) -> &[u32] {
        self
    }
}
