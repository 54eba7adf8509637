//! Two lists of rows that count as one.

use rx_base::StateID;

/// Two lists of rows that count as one: the second follows the first.
#[derive(Clone, Copy)]
pub(crate) struct Joined<'r> {
    pub(crate) first: &'r [StateID],
    pub(crate) second: &'r [StateID],
}
