//! The tests of all parts of an image together.

ghost use Rattle.std.specs.Prelude.{◌≡◌, ◌==◌};
ghost use Rattle.std.specs.List.{list_all};
ghost use Rattle.std.specs.Str.{bytes_eq};
ghost use Rattle.rx_sparse.specs.Layouts.{Layout, ids_of};
ghost use Rattle.rx_sparse.specs.Rows.{next_ids};
ghost use Rattle.rx_sparse_image.specs.RowSets.{Marks};
ghost use Rattle.rx_sparse_image.specs.Closing.{are_special_rows, each_row, has_needles, is_closed, is_row_id};
ghost use Rattle.rx_sparse_image.specs.Closing.{is_start_row, is_universal, leads_on, leaving, row_stands};
ghost use Rattle.rx_sparse_image.specs.Closing.{rows_stand, starts_stand};
ghost use Rattle.rx_sparse_image.specs.Turned.{AreWholeRows};
ghost use Rattle.rx_sparse_image.specs.Reading.{AreParts, image_layout, row_of};

use crate::read::Image;
use crate::row_parts::{RowParts, split_parts};
use crate::row_sets::RowSet;
use rx_base::StateID;
use rx_dense::Special;
use rx_image_parts::{is_in_range, word_at};

/// Whether each range and end of input lead to a row.
fn leads_to_rows(image: &Image<'_>, rows: &RowSet, row: &RowParts<'_>) -> bool
    requires parts { AreParts image.now.parts.order row.now }
    ensures { Marks rows.now (ids_of (image_layout image.now))
        → result ≡ list_all (is_row_id (image_layout image.now)) (next_ids (row_of image.now.parts.order row.now)) }
{
    for i in 0..row.len() {
        if !rows.has(row.next_id(image.parts.order, i)) {
            return false;
        }
    }
    true
}

/// Whether each range and end of input lead to dead.
fn leads_to_dead(image: &Image<'_>, row: &RowParts<'_>) -> bool
    requires { AreParts image.now.parts.order row.now }
    ensures { result ≡ list_all (λ id. id == 0) (next_ids (row_of image.now.parts.order row.now)) }
{
    for i in 0..row.len() {
        if row.next_id(image.parts.order, i) != 0 {
            return false;
        }
    }
    true
}

/// Whether a row leads where it may: dead and quit must lead only to dead.
fn leads_on(image: &Image<'_>, at: usize, row: &RowParts<'_>) -> bool
    requires { AreParts image.now.parts.order row.now }
    ensures { result ≡ leads_on image.now.parts.special at (row_of image.now.parts.order row.now) }
{
    if at == 0 || at == image.parts.special.quit.as_usize() {
        leads_to_dead(image, row)
    } else {
        true
    }
}

/// Whether `needles` are exactly the bytes on which a row leads elsewhere, in rising order.
fn are_leaving(image: &Image<'_>, at: usize, row: &RowParts<'_>, needles: &[u8]) -> bool
    requires { AreParts image.now.parts.order row.now }
    ensures { result
        ≡ bytes_eq needles.now (leaving image.now.parts.classes at (row_of image.now.parts.order row.now)) }
{
    let mut met = 0;
    for byte in 0..256 {
        let class = image.parts.classes.get(byte as u8);
        if row.next(image.parts.order, class) != at {
            if met >= needles.len() {
                return false;
            }
            if needles[met] as usize != byte {
                return false;
            }
            met += 1;
        }
    }
    met == needles.len()
}

/// Whether an accelerated row has exactly those bytes as needles.
fn has_needles(image: &Image<'_>, at: usize, row: &RowParts<'_>) -> bool
    requires { AreParts image.now.parts.order row.now }
    ensures { result ≡ has_needles (image_layout image.now) at (row_of image.now.parts.order row.now) }
{
    let special = &image.parts.special;
    if is_in_range(special.min_accel, special.max_accel, at) {
        are_leaving(image, at, row, &row.needles[1..])
    } else {
        true
    }
}

/// Whether a row passes its tests.
fn row_stands(image: &Image<'_>, rows: &RowSet, at: usize, row: &RowParts<'_>) -> bool
    requires { AreParts image.now.parts.order row.now }
    ensures { Marks rows.now (ids_of (image_layout image.now))
        → result ≡ row_stands (image_layout image.now) at (row_of image.now.parts.order row.now) }
{
    leads_to_rows(image, rows, row) && leads_on(image, at, row) && has_needles(image, at, row)
}

/// Whether each row passes its tests.
fn each_row(image: &Image<'_>, rows: &RowSet) -> bool
    requires { AreWholeRows image.now.parts.order image.now.parts.state_len image.now.rows.now }
    ensures { Marks rows.now (ids_of (image_layout image.now))
        → result ≡ each_row (row_stands (image_layout image.now)) 0 (image_layout image.now).rows }
{
    let mut rest = image.rows;
    for _ in 0..image.parts.state_len {
        let at = image.rows.len() - rest.len();
        let (row, behind) = split_parts(image.parts.order, rest);
        if !row_stands(image, rows, at, &row) {
            return false;
        }
        rest = behind;
    }
    true
}

/// Whether there are at least two rows, the second is quit, and each passes its tests.
fn rows_stand(image: &Image<'_>, rows: &RowSet) -> bool
    requires { AreWholeRows image.now.parts.order image.now.parts.state_len image.now.rows.now }
    ensures { Marks rows.now (ids_of (image_layout image.now)) → result ≡ rows_stand (image_layout image.now) }
{
    if image.parts.state_len < 2 {
        return false;
    }
    let (_, behind) = split_parts(image.parts.order, image.rows);
    let second = image.rows.len() - behind.len();
    image.parts.special.quit.as_usize() == second && each_row(image, rows)
}

/// Whether the special ids are ids of rows.
fn are_special_rows(rows: &RowSet, s: &Special) -> bool
    ensures { (l : Layout) → Marks rows.now (ids_of l) → result ≡ are_special_rows l s.now }
{
    rows.has(s.max.as_usize())
        && rows.has(s.min_match.as_usize())
        && rows.has(s.max_match.as_usize())
        && rows.has(s.min_accel.as_usize())
        && rows.has(s.max_accel.as_usize())
        && rows.has(s.min_start.as_usize())
        && rows.has(s.max_start.as_usize())
}

/// Whether a search may start in a row: it neither matches nor quits.
fn is_start_row(image: &Image<'_>, rows: &RowSet, id: usize) -> bool
    ensures { Marks rows.now (ids_of (image_layout image.now)) → result ≡ is_start_row (image_layout image.now) id }
{
    let special = &image.parts.special;
    rows.has(id)
        && !is_in_range(special.min_match, special.max_match, id)
        && id != special.quit.as_usize()
}

/// Whether all start rows neither match nor quit.
fn are_start_rows(image: &Image<'_>, rows: &RowSet) -> bool
    ensures { Marks rows.now (ids_of (image_layout image.now))
        → result ≡ list_all (is_start_row (image_layout image.now)) (image_layout image.now).starts }
{
    for i in 0..image.starts.len() / 4 {
        let id = word_at(image.parts.order, image.starts, i) as usize;
        if !is_start_row(image, rows, id) {
            return false;
        }
    }
    true
}

/// Whether a universal start, if there is one, is a row.
fn is_universal(rows: &RowSet, start: Option<StateID>) -> bool
    ensures { (l : Layout) → Marks rows.now (ids_of l) → result ≡ is_universal l start }
{
    match start {
        None => true,
        Some(id) => rows.has(id.as_usize()),
    }
}

/// Whether all start rows neither match nor quit, and universal starts are rows.
fn starts_stand(image: &Image<'_>, rows: &RowSet) -> bool
    ensures { Marks rows.now (ids_of (image_layout image.now)) → result ≡ starts_stand (image_layout image.now) }
{
    are_start_rows(image, rows)
        && is_universal(rows, image.parts.universal_unanchored)
        && is_universal(rows, image.parts.universal_anchored)
}

/// Whether all tests of the parts together succeed, and the number of rows is the one that the image states.
pub fn is_closed(image: &Image<'_>, rows: &RowSet) -> bool
    requires rows { AreWholeRows image.now.parts.order image.now.parts.state_len image.now.rows.now }
    requires marks { Marks rows.now (ids_of (image_layout image.now)) }
    ensures { result ≡ is_closed image.now.parts.state_len (image_layout image.now) }
{
    rows_stand(image, rows)
        && are_special_rows(rows, &image.parts.special)
        && starts_stand(image, rows)
}
