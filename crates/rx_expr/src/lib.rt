//! Expressions, and the NFAs that Thompson's construction makes of them.
//!
//! Build an [`Expr`] by calls; no pattern text is parsed. [`thompson::Compiler`] compiles a list of expressions into a
//! [`thompson::NFA`]. The contracts: each call on an expression says which expression results and exactly when it
//! fails; the NFA has exactly the states and starts of the definition `wanted_nfa`.
#![tactic(auto)]

mod bounds;
pub mod build_error;
mod expr;
pub mod thompson;

pub use expr::{Expr, ExprError, ExprKind};
