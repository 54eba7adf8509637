//! What is known of a table's patterns.

/// What is known of all patterns of a table.
#[derive(Clone, Copy, Debug)]
pub struct Flags {
    /// Whether some pattern matches without a byte.
    pub has_empty: bool,
    /// Whether matches that split a character of UTF-8 are passed over, where `has_empty` is set.
    pub is_utf8: bool,
    /// Whether every match begins at the text's edge.
    pub is_always_start_anchored: bool,
}
