//! The head of a pair image.
//!
//! | bytes | what |
//! |---|---|
//! | 0 to 27 | the label, a NUL, and padding |
//! | 28 to 31 | the word 0xFEFF, which marks the byte order |
//! | 32 to 35 | the version |
//! | 36 to 39 | the form of both tables: 0 is dense, 1 is sparse |

ghost use Rattle.std.specs.Prelude.{◌≡◌, ◌↔◌, IsTrue, length, true};
ghost use Rattle.std.specs.Int.{w32};
ghost use Rattle.rx_wire.specs.Kinds.{GivesExactly};
ghost use Rattle.rx_image.specs.Pairs.{form_number, form_of, head_at, head_text, is_same_order};

use rx_image_parts::{ENDIANNESS, put_plain, put_word};
use rx_spec::Form;
use rx_wire::{DeserializeError, Endian, Order, split_label, split_order};

/// The length of the head in bytes.
pub(crate) const HEAD_LEN: usize = 40;

/// The label of pair images.
const LABEL: &str = "rust-regex-automata-pair";

/// The label as it is written: with a NUL, padded with NULs to a multiple of 4 bytes.
const PADDED_LABEL: [u8; 28] = *b"rust-regex-automata-pair\0\0\0\0";

/// The version that is read and written. Images of single tables have version 2.
const VERSION: u32 = 3;

/// The number that stands for a form.
fn form_number(form: Form) -> u32
    ensures { result ≡ form_number form }
{
    match form {
        Form::Dense => 0,
        Form::Sparse => 1,
    }
}

/// Fills `dst`, of 40 bytes, with the head.
pub(crate) fn write_head<E: Endian>(form: Form, dst: &mut [u8])
    requires { length dst.old ≡ 40 }
    ensures { dst.new ≡ head_text E.order form }
{
    let label = put_plain(&PADDED_LABEL, dst, 0);
    let order = put_word::<E>(ENDIANNESS, dst, label);
    let version = put_word::<E>(VERSION, dst, order);
    put_word::<E>(form_number(form), dst, version);
}

/// The form that a number stands for, or an error of kind `Generic` if it is above 1.
fn form_of(number: u32) -> Result<Form, DeserializeError>
    ensures { GivesExactly (λ form. form) result (form_of number) }
{
    match number {
        0 => Ok(Form::Dense),
        1 => Ok(Form::Sparse),
        _ => Err(DeserializeError::generic("unknown form of tables")),
    }
}

/// Splits off the head. Returns the byte order and the form of both tables, and the bytes after the head. No NUL may
/// stand before the label.
#[tactic(auto, unfolding(crate::specs::Pairs::head_at))]
pub(crate) fn split_head(bytes: &[u8]) -> Result<((Order, Form), &[u8]), DeserializeError>
    ensures { GivesExactly (λ x. (x.0, x.1.now)) result (head_at bytes.now) }
{
    let (_, rest) = split_label(bytes, LABEL)?;
    let (order, rest) = split_order(rest)?;
    let rest = order.split_version(rest, VERSION)?;
    let (number, rest) = order.split_u32(rest, "form")?;
    let form = form_of(number)?;
    Ok(((order, form), rest))
}

/// Whether two orders are the same.
pub(crate) fn is_same_order(order: Order, other: Order) -> bool
    ensures { result ≡ is_same_order order other }
{
    match (order, other) {
        (Order::Little, Order::Little) => true,
        (Order::Big, Order::Big) => true,
        _ => false,
    }
}
