//! Builds dense tables of expressions or of an NFA.
//!
//! [`dense::Builder`] builds by the settings of a [`dense::Config`]. It determinizes the NFA, minimizes and accelerates
//! the table if asked to, and keeps or removes the marks of start states. Each step has a crate of its own and is
//! exported here: [`determinize`], [`shuffle`], [`Minimizer`], [`accelerate`], [`Remapper`].
//!
//! The contract (`specs/Built.antt`): on every word a built table reports what the powerset machine of its build
//! reports. Without minimizing it is that machine with its states in another order. With minimizing no table that
//! reports the same has fewer states. An error names a cause that holds. [`laws`]: a built table answers every search
//! as that machine does.
#![tactic(auto)]

pub mod dense;
pub mod determinize;
pub mod laws;

pub use rx_expr::build_error::{BuildError, BuildErrorKind};
pub use rx_minimize::Minimizer;
pub use rx_order::{Remappable, Remapper, accelerate, shuffle};
