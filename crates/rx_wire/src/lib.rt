//! The fields of images: numbers in either byte order, labels, the words that mark an image's byte order and version,
//! and the errors of readers and writers.
//!
//! One definition gives the bytes of each field, with the byte order as a parameter (`specs/Fields.antt`,
//! `specs/Heads.antt`). A reader takes a field from the front of some bytes, or returns the first test that they fail.
//! What was written is read back, whatever bytes follow ([`laws`]). Start with [`Order`] and [`Endian`].
#![tactic(auto)]

mod checks;
mod endian;
mod error;
mod label;
pub mod laws;
mod order;
mod put;
mod read;

pub use checks::{
    read_endianness_check, read_order, read_version, split_order, write_endianness_check,
    write_version,
};
pub use endian::{BE, Endian, LE};
pub use error::{DeserializeError, DeserializeErrorKind, SerializeError};
pub use label::{padding_len, read_label, split_label, write_label, write_label_len};
pub use order::Order;
pub use put::{put_bytes, put_u32, put_u128};
pub use read::{
    split_bytes, split_items, try_read_pattern_id, try_read_state_id, try_read_u16, try_read_u32,
    try_read_u128,
};
