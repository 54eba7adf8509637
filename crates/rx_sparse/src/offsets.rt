//! The offsets of the rows of a sparse table.

ghost use Rattle.std.specs.Prelude.{◌≡◌, ◌<◌, ◌≤◌, ◌/◌, ◌^◌, ℕ, length, slice_index};
ghost use Rattle.rx_spec.specs.Causes.{max_id};
ghost use Rattle.rx_sparse.specs.Reading.{offset_in};

/// The offset of each row of a dense table in its sparse form.
#[derive(Drop)]
pub(crate) struct Offsets {
    ids: Vec<u32>,
    /// The base-2 logarithm of the number of words of a row of the dense table.
    stride2: usize,
}

impl Offsets {
    /// These offsets, for a dense table with this stride.
    pub(crate) fn new(ids: Vec<u32>, stride2: usize) -> Offsets
        ensures ids { result.ids ≡ ids }
        ensures stride2 { result.stride2 ≡ stride2 }
    {
        Offsets { ids, stride2 }
    }

    /// The offset of a row of the dense table, by its id.
    pub(crate) fn offset(&self, id: u32) -> u32
        requires exponent { self.now.stride2 ≤ 9 }
        requires within { id / 2 ^ self.now.stride2 < length self.now.ids.items }
        ensures { result ≡ offset_in self.now id }
    {
        self.ids.as_slice()[id as usize >> self.stride2]
    }
}
