//! The command `image`: the image of one table of a script's plan, or of both tables that are searched together.

ghost use Rattle.std.specs.Prelude.{IfOk};
ghost use Rattle.rx_script.specs.Script.{script_read};
ghost use Rattle.rx_main.specs.Image.{ImageAnswers, ImageReplies};
ghost use Rattle.rx_main.specs.PairImage.{PairImageAnswers, PairImageReplies};

use crate::lines::refusal_reply;
use crate::reply::{FOUND, Reply};
use crate::scripts::{Reading, read};
use rx_regex::{PlanTable, build_image, build_pair_image};
use rx_script::Script;
use rx_wire::Order;
use std::alloc::{AllocError, Global};

/// The reply to the bytes of a script.
pub fn image(
    alloc: Global,
    text: &[u8],
    table: PlanTable,
    order: Order,
) -> Result<Reply, AllocError>
    ensures { IfOk result (ImageReplies table order text.now) }
{
    match read(alloc, text, false)? {
        Reading::Script(script) => image_reply(alloc, &script, table, order),
        Reading::TurnedDown(reply) => Ok(reply),
    }
}

/// The reply with the image, or with the error of the build.
fn image_reply(
    alloc: Global,
    script: &Script,
    table: PlanTable,
    order: Order,
) -> Result<Reply, AllocError>
    ensures { IfOk result (ImageAnswers table order (script_read script.now)) }
{
    match build_image(alloc, script.exprs.as_slice(), &script.plan, table, order) {
        Ok(image) => Ok(Reply::from_bytes(image, FOUND)),
        Err(error) => refusal_reply(alloc, &error),
    }
}

/// The reply to the bytes of a script: one image of both tables.
pub fn pair_image(alloc: Global, text: &[u8], order: Order) -> Result<Reply, AllocError>
    ensures { IfOk result (PairImageReplies order text.now) }
{
    match read(alloc, text, false)? {
        Reading::Script(script) => pair_image_reply(alloc, &script, order),
        Reading::TurnedDown(reply) => Ok(reply),
    }
}

/// The reply with the image of both tables, or with the error of the build.
fn pair_image_reply(alloc: Global, script: &Script, order: Order) -> Result<Reply, AllocError>
    ensures { IfOk result (PairImageAnswers order (script_read script.now)) }
{
    match build_pair_image(alloc, script.exprs.as_slice(), &script.plan, order) {
        Ok(image) => Ok(Reply::from_bytes(image, FOUND)),
        Err(error) => refusal_reply(alloc, &error),
    }
}
