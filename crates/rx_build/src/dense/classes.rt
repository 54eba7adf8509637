//! The byte classes of a table and its quit bytes.

ghost use Rattle.std.specs.Prelude.{◌≡◌, ℕ, ◌<◌, IfOk, true};
ghost use Rattle.rx_spec.specs.Classes.{has_unicode_word, quit_set};
ghost use Rattle.rx_expr.specs.Nfa.{meaning};
ghost use Rattle.rx_determinize.specs.Begun.{classes_of};

use rx_base::{ByteClasses, ByteSet};
use rx_expr::thompson::NFA;
use std::alloc::AllocError;

/// Whether some state of the NFA has a Unicode word assertion.
fn has_unicode_word(nfa: &NFA) -> bool
    ensures { result ≡ has_unicode_word (meaning nfa.now) }
{
    nfa.look_set_any().contains_word_unicode()
}

/// The quit bytes in effect: those that are set, and every byte from 0x80 on if `unicode_word` is set and the NFA has a
/// Unicode word assertion.
pub(super) fn quit_bytes(nfa: &NFA, set: &ByteSet, unicode_word: bool) -> ByteSet
    ensures { result ≡ quit_set (meaning nfa.now) set.now unicode_word }
{
    if unicode_word && has_unicode_word(nfa) {
        set.union(&ByteSet::non_ascii())
    } else {
        *set
    }
}

/// The class of each byte. Bytes that no state of the NFA and no quit byte distinguishes share a class. Without byte
/// classes each byte has its own.
pub(super) fn byte_classes(
    nfa: &NFA,
    quit: &ByteSet,
    byte_classes: bool,
) -> Result<ByteClasses, AllocError>
    ensures { IfOk result (λ classes. classes ≡ classes_of (meaning nfa.now) quit.now byte_classes) }
{
    if !byte_classes {
        let classes = ByteClasses::singletons();
        prove!(classes.alphabet_len() == 257);
        return Ok(classes);
    }
    let mut set = nfa.byte_class_set().clone()?;
    set.add_set(quit);
    let classes = set.byte_classes();
    prove!(classes.alphabet_len() <= 257);
    Ok(classes)
}
