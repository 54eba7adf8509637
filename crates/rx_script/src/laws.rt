//! The grammar of scripts and the reading function agree: laws of the definitions, as functions with empty bodies.

ghost use Rattle.std.specs.Prelude.{◌≡◌, ℕ, Bool, List, Ok};
ghost use Rattle.rx_script.specs.Grammar.{Spelled, Spells};
ghost use Rattle.rx_script.specs.Reading.{script_of};

/// The reading function reads each script that a text spells. So a text spells at most one script.
pub fn spelled_is_read()
    ensures { (with_input : Bool) (text : List ℕ) (script : Spelled)
        → Spells with_input text script → script_of with_input text ≡ Ok script }
{}

/// A script that the reading function reads is one that the text spells. So a text has a fault exactly if it spells no
/// script.
pub fn read_is_spelled()
    ensures { (with_input : Bool) (text : List ℕ) (script : Spelled)
        → script_of with_input text ≡ Ok script → Spells with_input text script }
{}
