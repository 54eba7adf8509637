//! Special ids: read, tested, and the rows that they name.

ghost use Rattle.std.specs.Prelude.{◌≡◌, ◌*◌, ◌<◌, IfOk, true};
ghost use Rattle.rx_wire.specs.Kinds.{Gives};
ghost use Rattle.rx_dense.specs.declared.special.Special.{Special};
ghost use Rattle.rx_image_parts.specs.SpecialIds.{are_past_quit, are_ranges, are_special, begin_in_order};
ghost use Rattle.rx_image_parts.specs.SpecialIds.{begins_after, id_pair_at, is_past_quit, is_range, special_at};
ghost use Rattle.rx_image_parts.specs.SpecialIds.{special_ids_at, is_named};
ghost use Rattle.rx_dense.specs.Specials.{is_in_range};

use rx_base::StateID;
use rx_dense::Special;
use rx_wire::{DeserializeError, Order, split_bytes};

/// The length of the special ids in bytes.
const SPECIAL_LEN: usize = 32;

/// Whether two ids bound a range: both are 0, or neither is and the first is at most the last.
fn is_range(first: StateID, last: StateID) -> bool
    ensures { result ≡ is_range first last }
{
    if first == StateID::ZERO {
        last == StateID::ZERO
    } else {
        first <= last
    }
}

/// Whether a range is empty or begins after the quit row.
fn is_past_quit(quit: StateID, first: StateID) -> bool
    ensures { result ≡ is_past_quit quit first }
{
    first == StateID::ZERO || quit < first
}

/// Whether, if both ranges have rows, one begins no sooner than the other.
fn begins_after(first: StateID, other: StateID) -> bool
    ensures { result ≡ begins_after first other }
{
    first == StateID::ZERO || other == StateID::ZERO || other <= first
}

fn are_ranges(s: &Special) -> bool
    ensures { result ≡ are_ranges s.now }
{
    is_range(s.min_match, s.max_match)
        && is_range(s.min_accel, s.max_accel)
        && is_range(s.min_start, s.max_start)
}

fn are_past_quit(s: &Special) -> bool
    ensures { result ≡ are_past_quit s.now }
{
    is_past_quit(s.quit, s.min_match)
        && is_past_quit(s.quit, s.min_accel)
        && is_past_quit(s.quit, s.min_start)
}

fn begin_in_order(s: &Special) -> bool
    ensures { result ≡ begin_in_order s.now }
{
    begins_after(s.min_accel, s.min_match)
        && begins_after(s.min_start, s.min_match)
        && begins_after(s.min_start, s.min_accel)
}

/// Whether special ids fit each other.
pub fn are_special(s: &Special) -> bool
    ensures { result ≡ are_special s.now }
{
    let mut named = *s;
    named.set_max();
    are_ranges(s) && are_past_quit(s) && begin_in_order(s) && named.max <= s.max
}

#[tactic(auto, unfolding(crate::specs::SpecialIds::id_pair_at))]
fn split_id_pair<'a>(
    order: Order,
    bytes: &'a [u8],
    what: &'static str,
) -> Result<((StateID, StateID), &'a [u8]), DeserializeError>
    ensures { Gives (λ x. ((x.0.0, x.0.1), x.1.now)) result (id_pair_at order bytes.now) }
{
    let (first, rest) = order.split_state_id(bytes, what)?;
    let (last, rest) = order.split_state_id(rest, what)?;
    Ok(((first, last), rest))
}

#[tactic(auto, unfolding(crate::specs::SpecialIds::special_ids_at))]
fn split_special_ids(order: Order, bytes: &[u8]) -> Result<(Special, &[u8]), DeserializeError>
    ensures { Gives (λ x. (x.0, x.1.now)) result (special_ids_at order bytes.now) }
{
    let ((max, quit), rest) = split_id_pair(order, bytes, "greatest special and quit id")?;
    let ((min_match, max_match), rest) = split_id_pair(order, rest, "match ids")?;
    let ((min_accel, max_accel), rest) = split_id_pair(order, rest, "accelerated ids")?;
    let ((min_start, max_start), rest) = split_id_pair(order, rest, "start ids")?;
    let special = Special {
        max,
        quit,
        min_match,
        max_match,
        min_accel,
        max_accel,
        min_start,
        max_start,
    };
    Ok((special, rest))
}

/// The special ids. They must fit each other and lie within the words of the rows.
#[tactic(auto, unfolding(crate::specs::SpecialIds::special_at))]
pub fn split_special(
    order: Order,
    word_len: usize,
    bytes: &[u8],
) -> Result<(Special, &[u8]), DeserializeError>
    ensures read { Gives (λ x. (x.0, x.1.now)) result (special_at order word_len bytes.now) }
    ensures special { IfOk result (λ x. are_special x.0 ≡ true) }
    ensures within { IfOk result (λ x. x.0.max < word_len) }
{
    let (front, rest) = split_bytes(SPECIAL_LEN, bytes, "special ids")?;
    let (special, _) = split_special_ids(order, front)?;
    if !are_special(&special) {
        return Err(DeserializeError::generic("special ids aren't in order"));
    }
    if special.max.as_usize() >= word_len {
        return Err(DeserializeError::generic("special ids past the rows"));
    }
    Ok((special, rest))
}

/// Whether an id lies between two, and is not that of the dead row.
pub fn is_in_range(first: StateID, last: StateID, id: usize) -> bool
    ensures { result ≡ is_in_range first last id }
{
    first.as_usize() <= id && id <= last.as_usize() && id != 0
}

/// Whether a row is dead, quit or in a special range.
pub fn is_named(s: &Special, id: usize) -> bool
    ensures { result ≡ is_named s.now id }
{
    id == 0
        || id == s.quit.as_usize()
        || is_in_range(s.min_match, s.max_match, id)
        || is_in_range(s.min_accel, s.max_accel, id)
        || is_in_range(s.min_start, s.max_start, id)
}
