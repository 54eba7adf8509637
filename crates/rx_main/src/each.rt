//! The command `each`: the matches of a script's patterns in its haystack, one after another.

ghost use Rattle.std.specs.Prelude.{◌≡◌, IfOk, List};
ghost use Rattle.rx_spec.specs.Expressions.{Expression};
ghost use Rattle.rx_spec.specs.Iterating.{iterate};
ghost use Rattle.rx_plan.specs.Plans.{Plan as SearchPlan, outcome};
ghost use Rattle.rx_spec.specs.Queries.{IsFit};
ghost use Rattle.rx_base.specs.Input.{query_of};
ghost use Rattle.rx_regex.specs.Tables.{IsOf};
ghost use Rattle.rx_script.specs.Script.{script_read};
ghost use Rattle.rx_main.specs.Scripts.{AskedReplies, IsAsking};
ghost use Rattle.rx_main.specs.Each.{EachAnswers, EachReplies, each_reply};

use crate::lines::{error_reply, fixed_reply, push_match, refusal_reply};
use crate::reply::{FOUND, NOT_FOUND, Reply};
use crate::scripts::{Reading, asked, read};
use rx_base::Input;
use rx_regex::Built;
use rx_script::Script;
use std::alloc::{AllocError, Global};

/// The reply to the bytes of a script.
pub fn each(alloc: Global, text: &[u8]) -> Result<Reply, AllocError>
    ensures { IfOk result (EachReplies text.now) }
{
    match read(alloc, text, true)? {
        Reading::Script(script) => solve(alloc, &script),
        Reading::TurnedDown(reply) => Ok(reply),
    }
}

/// The reply with the matches, or with the error of the build.
fn solve(alloc: Global, script: &Script) -> Result<Reply, AllocError>
    requires { IsAsking (script_read script.now).asked }
    ensures { IfOk result (AskedReplies EachAnswers (script_read script.now)) }
{
    let input = asked(script);
    match Built::new(alloc, script.exprs.as_slice(), &script.plan) {
        Ok(built) => matches_reply(alloc, &built, &input),
        Err(error) => refusal_reply(alloc, &error),
    }
}

/// The reply with the matches of an input, and the error that ends them, if any.
fn matches_reply(alloc: Global, built: &Built, input: &Input<'_>) -> Result<Reply, AllocError>
    requires { IsFit (query_of input.now) }
    ensures { IfOk result (λ reply. (p : SearchPlan) (es : List Expression) → IsOf p es built.now
        → reply ≡ each_reply (iterate (outcome p es) (query_of input.now))) }
{
    let mut text = String::new(alloc);
    'matches: for item in built.find_iter(input) {
        match item {
            Ok(found) => push_match(&mut text, &found)?,
            Err(error) => return error_reply(text, &error),
        }
    }
    if text.is_empty() {
        return fixed_reply(alloc, "none\n", NOT_FOUND);
    }
    Ok(Reply::new(text, FOUND))
}
