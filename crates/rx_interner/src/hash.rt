//! A hash of a list of numbers.

ghost use Rattle.std.specs.Prelude.{◌≡◌};
ghost use Rattle.rx_interner.specs.Hash.{hash_of};

/// The hash of the empty list.
const SEED: u64 = 0x243f_6a88_85a3_08d3;

/// It is odd, so that the product loses no bit, and its bits are mixed, so that each bit of a number spreads.
const FACTOR: u64 = 0x9e37_79b9_7f4a_7c15;

/// A hash of a list of numbers.
///
/// The multiplications don't depend on each other, so the processor runs them at once. The rotation lets every number
/// reach every bit. It repeats after 64 numbers; the carries of the sums distinguish such numbers.
#[tactic(auto, unfolding(crate::specs::Hash::hash_of))]
pub(crate) fn hash_of(key: &[u32]) -> u64
    ensures { result ≡ hash_of key.now }
{
    key.iter().fold(SEED, |hash, number| {
        hash.rotate_left(29)
            .wrapping_add(u64::from(*number).wrapping_mul(FACTOR))
    })
}
