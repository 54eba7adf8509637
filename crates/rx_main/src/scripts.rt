//! What all commands that read a script share.

ghost use Rattle.std.specs.Prelude.{◌≡◌, IfOk, Some};
ghost use Rattle.rx_spec.specs.Queries.{IsFit};
ghost use Rattle.rx_base.specs.Input.{query_of};
ghost use Rattle.rx_script.specs.Script.{script_read};
ghost use Rattle.rx_main.specs.Scripts.{IsAsking, IsRead};

use crate::lines::fault_reply;
use crate::reply::Reply;
use rx_base::Input;
use rx_script::{Script, ScriptFault, read_script};
use std::alloc::{AllocError, Global};

/// The result of reading a script.
#[derive(Drop)]
pub enum Reading {
    /// A script.
    Script(Script),
    /// A fault of the script, with the reply to it.
    TurnedDown(Reply),
}

/// Reads a script, with its input or without.
pub fn read(alloc: Global, text: &[u8], with_input: bool) -> Result<Reading, AllocError>
    ensures { IfOk result (IsRead with_input text.now) }
{
    match read_script(alloc, text, with_input) {
        Ok(script) => Ok(Reading::Script(script)),
        Err(ScriptFault::Bad { line, kind }) => {
            Ok(Reading::TurnedDown(fault_reply(alloc, line, kind)?))
        }
        Err(ScriptFault::Memory) => Err(AllocError),
    }
}

/// The input of a script that was read with one.
pub fn asked(script: &Script) -> Input<'_>
    requires { IsAsking (script_read script.now).asked }
    ensures query { (script_read script.now).asked ≡ Some (query_of result) }
    ensures fits { IsFit (query_of result) }
{
    let Some(input) = &script.input else {
        unreachable!("a script that is read with its input has one");
    };
    Input::new(input.haystack.as_slice())
        .range(input.start, input.end)
        .anchored(input.mode)
}
