//! The parts of images of sparse tables: what is read, tested and written.
//!
//! `rx_image` reads and writes whole images by these calls. A table that is read borrows the image.
//!
//! The contract: `text` in `specs/Images.antt` defines each byte of a table's image, and `reads` defines which table
//! some bytes spell, or which test they fail first. [`put_image`] writes exactly `text`. [`split_image`], [`walk`] and
//! [`is_closed`] are the parts of `reads`. The laws: an image is read as the table that was written.
#![tactic(auto)]

mod closing;
mod laws;
mod put;
mod read;
mod row_bytes;
mod row_parts;
mod row_sets;
mod rows;
mod start_table;
mod turned;

pub use closing::is_closed;
pub use laws::{images_are_read_again, what_can_be_read_is_sound};
pub use put::{image_len, put_image};
pub use read::{Image, bounds_of, split_image};
pub use row_sets::RowSet;
pub use rows::{Bounds, walk};
