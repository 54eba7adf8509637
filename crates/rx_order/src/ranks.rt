//! The ranks of rows: in which order those of one kind lie.

ghost use Rattle.std.specs.Prelude.{◌≡◌, ℕ, ◌<◌, ◌≤◌, ◌^◌, IfOk, length, slice_index};
ghost use Rattle.std.specs.List.{range_with_len};
ghost use Rattle.rx_dense.specs.Layouts.{row_count};

use rx_dense::OwnedDFA;
use std::alloc::{AllocError, Global};

/// The numbers of so many rows.
pub(crate) fn numbers(alloc: Global, count: usize) -> Result<Vec<u32>, AllocError>
    requires { count ≤ 2 ^ 32 }
    ensures { IfOk result (λ numbers. numbers.items ≡ range_with_len 0 count) }
{
    let mut numbers = Vec::with_capacity(alloc, count)?;
    for row in 0..count {
        numbers.push(row as u32)?;
    }
    Ok(numbers)
}

/// The rank of each row: when a walk that goes as deep as it can comes to it. So the next state of a search often lies
/// in the next row. Match rows, start rows, and rows that no walk comes to have their numbers.
pub(crate) fn depth_first(
    alloc: Global,
    dfa: &OwnedDFA,
    kinds: &[u8],
) -> Result<Vec<u32>, AllocError>
    requires { length kinds.now ≡ row_count dfa.now }
    ensures count { IfOk result (λ ranks. length ranks.items ≡ row_count dfa.now) }
    ensures matches { IfOk result (λ ranks. (row : ℕ) → row < row_count dfa.now → slice_index kinds.now row ≡ 2
        → slice_index ranks.items row ≡ row) }
{
    let (words, stride2, columns) = (dfa.words(), dfa.stride2(), dfa.alphabet_len());
    let mut ranks = numbers(alloc, kinds.len())?;
    let mut found = vec![in alloc; false; kinds.len()]?;
    // Rows from which the walk goes on, each with how many of its columns are left. The last column is the first.
    let mut left = Vec::with_capacity(alloc, kinds.len())?;
    for id in dfa.start_ids() {
        let row = *id as usize >> stride2;
        if !found[row] {
            found[row] = true;
            left.push((row, columns))?;
        }
    }
    let Some((mut row, mut count)) = left.pop() else {
        return Ok(ranks);
    };
    for step in 0..words.len() {
        count -= 1;
        let next = words[(row << stride2) + count] as usize >> stride2;
        if !found[next] {
            found[next] = true;
            // No row is accelerated yet, so 2 is the kind of all match rows.
            if kinds[next] != 2 {
                ranks[next] = step as u32;
            }
            if count > 0 {
                left.push((row, count))?;
            }
            (row, count) = (next, columns);
        } else if count == 0 {
            let Some(other) = left.pop() else {
                break;
            };
            (row, count) = other;
        }
    }
    Ok(ranks)
}
