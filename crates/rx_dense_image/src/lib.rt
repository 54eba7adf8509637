//! The parts of images of dense tables: what is read, tested and written.
//!
//! `rx_image` reads and writes whole images by these calls. What images of sparse tables have too is in
//! `rx_image_parts`.
//!
//! The contract: `text` in `specs/Images.antt` defines each byte of a table's image, and `reads` defines which table
//! some bytes spell, or which test they fail first. [`put_image`] writes exactly `text`. [`split_parts`] and
//! [`is_closed`] are the parts of `reads`. [`laws`]: an image is read as the table that was written.
#![tactic(auto)]

mod bulk;
mod closing;
mod head;
pub mod laws;
mod marks;
mod parts;
mod pattern_lists;
mod put;
mod read;
mod rows;
mod start_table;

pub use closing::is_closed;
pub use head::split_dense_head;
pub use parts::{AccelImage, AccelsImage, SpecialImage};
pub use put::{image_len, put_image};
pub use read::split_parts;
