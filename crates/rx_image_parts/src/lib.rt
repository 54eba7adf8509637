//! Parts that images of dense and of sparse tables share: head, classes, start table, special ids and quit bytes.
//!
//! A `split` function reads a part at the front of some bytes and returns it with the bytes after it. A `put` function
//! writes a part at an index and returns the index after it. By its contract, a `split` function returns what the
//! definition named `.._at` says of the bytes, and a `put` function writes exactly the bytes of the definition named
//! `.._text`.
#![tactic(auto)]

mod classes;
mod head;
mod put;
mod quit;
mod special;
mod start_table;
mod words;

pub use classes::classes_of;
pub use head::split_head;
pub use put::{
    ENDIANNESS, context_number, kind_number, put_head, put_plain, put_quit, put_special, put_word,
    universal_word,
};
pub use quit::split_quit;
pub use special::{are_special, is_in_range, is_named, split_special};
pub use start_table::{
    CONTEXTS, NONE, split_pattern_starts, split_start_kinds, split_universal, start_entries,
};
pub use words::{count_of, split_words, word_at};
