//! The parts of a start table.

ghost use Rattle.std.specs.Prelude.{◌≡◌, ◌<◌, IfOk, Option, length, map, nat_lt};
ghost use Rattle.std.specs.List.{list_all};
ghost use Rattle.rx_spec.specs.Causes.{id_count};
ghost use Rattle.rx_wire.specs.Kinds.{Gives};
ghost use Rattle.rx_dense.specs.Layouts.{start_entries};
ghost use Rattle.rx_image_parts.specs.StartTables.{IsAtMost, context_count, context_count_at, context_of};
ghost use Rattle.rx_image_parts.specs.StartTables.{contexts_at, pattern_starts_at, start_kind_at, start_kinds_at};
ghost use Rattle.rx_image_parts.specs.StartTables.{universal_at};

use rx_base::{PatternID, Start, StartKind, StateID};
use rx_wire::{DeserializeError, DeserializeErrorKind, Order, split_bytes};

/// The number for no universal start, and for no patterns with start rows of their own.
pub const NONE: u32 = 0xFFFFFFFF;

/// The number of start contexts.
pub const CONTEXTS: u32 = 6;

#[tactic(auto, unfolding(crate::specs::StartTables::start_kind_at))]
fn split_start_kind(order: Order, bytes: &[u8]) -> Result<(StartKind, &[u8]), DeserializeError>
    ensures { Gives (λ x. (x.0, x.1.now)) result (start_kind_at order bytes.now) }
{
    let (number, rest) = order.split_u32(bytes, "start kind")?;
    match number {
        0 => Ok((StartKind::Both, rest)),
        1 => Ok((StartKind::Unanchored, rest)),
        2 => Ok((StartKind::Anchored, rest)),
        _ => Err(DeserializeError::generic("unknown start kind")),
    }
}

/// The context with this number.
fn context_of(number: u8) -> Start
    ensures { result ≡ context_of number }
{
    match number {
        0 => Start::NonWordByte,
        1 => Start::WordByte,
        2 => Start::Text,
        3 => Start::LineLF,
        4 => Start::LineCR,
        _ => Start::CustomLineTerminator,
    }
}

/// The contexts with these 256 numbers.
fn contexts_of(numbers: &[u8]) -> [Start; 256]
    requires { length numbers.now ≡ 256 }
    ensures { result ≡ map context_of numbers.now }
{
    let mut contexts = [Start::NonWordByte; 256];
    for byte in 0..256 {
        contexts[byte] = context_of(numbers[byte]);
    }
    contexts
}

/// Whether each number is that of a context.
fn are_contexts(numbers: &[u8]) -> bool
    ensures { result ≡ list_all (λ byte. nat_lt byte context_count) numbers.now }
{
    numbers.iter().all(|number| *number < 6)
}

#[tactic(auto, unfolding(crate::specs::StartTables::contexts_at))]
fn split_contexts(bytes: &[u8]) -> Result<([Start; 256], &[u8]), DeserializeError>
    ensures { Gives (λ x. (x.0, x.1.now)) result (contexts_at bytes.now) }
{
    let (numbers, rest) = split_bytes(256, bytes, "start contexts")?;
    if !are_contexts(numbers) {
        return Err(DeserializeError::generic("unknown start context"));
    }
    Ok((contexts_of(numbers), rest))
}

#[tactic(auto, unfolding(crate::specs::StartTables::context_count_at))]
fn split_context_count(order: Order, bytes: &[u8]) -> Result<(u32, &[u8]), DeserializeError>
    ensures { Gives (λ x. (x.0, x.1.now)) result (context_count_at order bytes.now) }
{
    let (number, rest) = order.split_u32(bytes, "number of start contexts")?;
    if number != CONTEXTS {
        return Err(DeserializeError::generic("another number of start contexts"));
    }
    Ok((number, rest))
}

/// The start kind and the contexts, and the bytes after them and after the number of contexts.
#[tactic(auto, unfolding(crate::specs::StartTables::start_kinds_at))]
pub fn split_start_kinds(
    order: Order,
    bytes: &[u8],
) -> Result<((StartKind, [Start; 256]), &[u8]), DeserializeError>
    ensures read { Gives (λ x. ((x.0.0, x.0.1), x.1.now)) result (start_kinds_at order bytes.now) }
    ensures len { IfOk result (λ x. length x.0.1 ≡ 256) }
{
    let (kind, rest) = split_start_kind(order, bytes)?;
    let (contexts, rest) = split_contexts(rest)?;
    let (_, rest) = split_context_count(order, rest)?;
    Ok(((kind, contexts), rest))
}

/// The number of patterns with start rows of their own, and the bytes after it.
#[tactic(auto, unfolding(crate::specs::StartTables::pattern_starts_at))]
pub fn split_pattern_starts(
    order: Order,
    bytes: &[u8],
) -> Result<(Option<usize>, &[u8]), DeserializeError>
    ensures read { Gives (λ x. (x.0, x.1.now)) result (pattern_starts_at order bytes.now) }
    ensures few { IfOk result (λ x. IsAtMost id_count x.0) }
{
    let (number, rest) = order.split_u32(bytes, "number of patterns with starts")?;
    if number == NONE {
        return Ok((None, rest));
    }
    let patterns = number as usize;
    if patterns > PatternID::LIMIT {
        return Err(DeserializeError::generic("too many patterns with starts"));
    }
    Ok((Some(patterns), rest))
}

/// A universal start, and the bytes after it.
#[tactic(auto, unfolding(crate::specs::StartTables::universal_at))]
pub fn split_universal<'a>(
    order: Order,
    bytes: &'a [u8],
    what: &'static str,
) -> Result<(Option<StateID>, &'a [u8]), DeserializeError>
    ensures { Gives (λ x. (x.0, x.1.now)) result (universal_at order bytes.now) }
{
    let (number, rest) = order.split_u32(bytes, what)?;
    if number == NONE {
        return Ok((None, rest));
    }
    match StateID::new(number as usize) {
        Ok(id) => Ok((Some(id), rest)),
        Err(err) => Err(DeserializeError::new(DeserializeErrorKind::StateID { err, what })),
    }
}

/// The number of start entries if `pattern_starts` patterns have start rows of their own.
pub fn start_entries(pattern_starts: Option<usize>) -> usize
    requires { IsAtMost id_count pattern_starts }
    ensures { result ≡ start_entries pattern_starts }
{
    match pattern_starts {
        None => 12,
        Some(patterns) => 12 + 6 * patterns,
    }
}
