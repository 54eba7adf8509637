//! New numbers for the parts of a block.

ghost use Rattle.std.specs.Prelude.{◌≡◌, ℕ, ◌+◌, ◌*◌, ◌<◌, ◌≤◌, ◌^◌, length, slice_index, true, All};
ghost use Rattle.rx_refine.specs.Parts.{is_in};
ghost use Rattle.rx_refine.specs.Numbers.{how_many_have, NumbersRows};

/// Gives the rows of a block with one key one number. If more than half of the rows have one key, they keep the number
/// that they have. Each other key gets a new number, from `first` on. Returns the number after the last new one.
/// `names` is room to work in: its numbers are below `first` before the call, and below the result after it.
pub(crate) fn number_rows(
    members: &[u32],
    keys: &[u32],
    names: &mut [u32],
    first: usize,
    blocks: &mut [u32],
) -> usize
    requires rows { All (λ row. row < length keys.now) members.now }
    requires keys { All (λ key. key < length names.old) keys.now }
    requires blocks { length blocks.old ≡ length keys.now }
    requires names { All (λ name. name < first) names.old }
    requires room { first + length members.now ≤ 2 ^ 32 }
    ensures names { All (λ name. name < result) names.new }
    ensures len { length blocks.new ≡ length blocks.old }
    ensures rising { first ≤ result }
    ensures few { result ≤ first + length members.now }
    ensures numbers { NumbersRows members.now keys.now first blocks.old blocks.new result }
{
    let kept = leading_key(members, keys);
    let mut count = first;
    for row in members {
        let key = keys[*row as usize];
        if key != kept {
            if (names[key as usize] as usize) < first {
                names[key as usize] = count as u32;
                count += 1;
            }
            blocks[*row as usize] = names[key as usize];
        }
    }
    count
}

/// The key of one of the rows. If more than half of the rows have one key, it is that one: a vote drops pairs of rows
/// with different keys, and such a key is left over.
fn leading_key(members: &[u32], keys: &[u32]) -> u32
    requires { All (λ row. row < length keys.now) members.now }
    ensures some { 0 < length members.now
        → (row : ℕ) × (is_in members.now row ≡ true) × (slice_index keys.now row ≡ result) }
    ensures half { (key : ℕ) → (key ≡ result → ⊥) → 2 * how_many_have keys.now key members.now ≤ length members.now }
{
    let mut leading = 0;
    let mut votes: usize = 0;
    for row in members {
        let key = keys[*row as usize];
        if votes == 0 {
            leading = key;
        }
        if key == leading {
            votes += 1;
        } else {
            votes -= 1;
        }
    }
    leading
}

/// Sets all numbers to 0.
pub(crate) fn clear(numbers: &mut [u32])
    ensures len { length numbers.new ≡ length numbers.old }
    ensures zeros { All (λ number. number ≡ 0) numbers.new }
{
    for number in numbers.iter_mut() {
        *number = 0;
    }
}
