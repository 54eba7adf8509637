//! What the definitions mean: theorems over them alone.
//!
//! No function here computes anything: each has an empty body, and its contract is the theorem. The
//! theorems are about the powerset machines of lists of expressions, before any table, class or id is
//! made of them, so whatever gives the labels of such a machine inherits them. Start with
//! [`preference`]: what a search forward finds. [`mirrored`] says what a search in reverse finds, and
//! [`joined`] that the two together find the match. [`tables`] carries this to tables that give a build,
//! and to any two tables that tell the same; [`bounds`] says where answers lie and what they depend on,
//! and [`least`] how few rows a table can have.
#![tactic(auto)]

pub mod all;
pub mod bounds;
pub mod joined;
pub mod least;
pub mod mirrored;
pub mod tables;

ghost use Rattle.rx_meaning.specs.Preference.{Preference};

/// The forward half search finds the leftmost match, and there the preferred one.
///
/// For all expressions whose repetitions are bounded, all haystacks and spans within them, all modes,
/// quit sets and line terminators: where the half search over the powerset machine of the forward
/// leftmost-first build is neither refused nor meets a quit byte, it tells the pattern and the end of
/// what is found, and none exactly where nothing is.
pub fn preference()
    ensures { Preference }
{}
