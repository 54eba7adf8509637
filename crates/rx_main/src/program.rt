//! The program: a command line, a source and a sink.

ghost use Rattle.std.specs.Prelude.{◌≡◌, ◌<◌, ◌≤◌, ◌↔◌, ℕ, List, length, IfOk, IfErr, Err};
ghost use Rattle.std.specs.Io.KnownBytes.{Appends, Consumes};
ghost use Rattle.rx_base.specs.Outside.{Rose};
ghost use Rattle.rx_base.specs.Search.{mode_of};
ghost use Rattle.rx_transfer.specs.Outside.{AppendsFront};
ghost use Rattle.rx_feed.specs.Run.{FeedAnswers, FeedBreaks, FeedCut, FeedStarved};
ghost use Rattle.rx_main.specs.Commands.{Says};
ghost use Rattle.rx_main.specs.Lines.{long_reply};
ghost use Rattle.rx_main.specs.Replies.{ReadReplies};
ghost use Rattle.rx_main.specs.Run.{Answers, Breaks, IsOutput, IsCut, IsNoFeed, IsStarved, Took};
ghost use Rattle.rx_main.specs.declared.command.Command.{Command as Asked};

use crate::check::{check, check_pair};
use crate::command::{Command, Feed, ReadCommand, command_of};
use crate::each::each;
use crate::equal::equal;
use crate::find::find;
use crate::generate::generate;
use crate::image::{image, pair_image};
use crate::lines::{long_reply, usage_reply};
use crate::reply::Reply;
use crate::scan::scan;
use crate::search::search;
use crate::seek::seek_reply;
use crate::transfer::read_rest;
use crate::words::Words;
use rx_base::{Sink, Source};
use rx_feed::{Fault, feed};
use rx_transfer::{TextFault, new_buffer, write_text};
use std::alloc::{AllocError, Global};

/// The status if the source fails.
const SOURCE_FAILED: u8 = 5;

const SINK_FAILED: u8 = 6;

const NO_MEMORY: u8 = 7;

/// Why there is no reply.
#[derive(Clone, Copy, Debug, PartialEq, Eq)]
enum Stop {
    /// The source failed.
    Failed,
    /// Memory ran out.
    Memory,
}

impl From<AllocError> for Stop {
    ghost use Rattle.std.specs.Prelude.{◌≡◌};
    ghost use Rattle.rx_main.specs.declared.program.Stop.TheVariants.{Memory};

    ghost from_gives = { λ _ e. e ≡ Memory };

    fn from(_: AllocError) -> Stop {
        Stop::Memory
    }
}

/// What a command line produces.
#[derive(Drop)]
pub enum Output {
    /// A reply, which is written when it is complete.
    Reply(Reply),
    /// The lines of `feed`, which are written while a text is read.
    Feed(Feed),
}

/// Produces the output. Reads the source, except for `feed`.
fn answer<S: Source>(alloc: Global, words: &Words, src: &mut S) -> Result<Output, Stop>
    ensures took { IfOk result (IsOutput words.now (S.left src.old) (S.left src.new)) }
    ensures other { IfErr result (λ stop. IsNoFeed words.now) }
    ensures failed { result ≡ Err Stop.Failed → Rose (S.faults src.old) (S.faults src.new) }
    ensures counted { S.faults src.old ≤ S.faults src.new }
{
    let Some(command) = command_of(words) else {
        return Ok(Output::Reply(usage_reply(alloc)?));
    };
    match command {
        Command::Read(command) => Ok(Output::Reply(reply(alloc, command, src)?)),
        Command::Gen(count) => Ok(Output::Reply(generate(alloc, count)?)),
        Command::Feed(asked) => Ok(Output::Feed(asked)),
    }
}

/// Reads all of the source and produces the reply.
fn reply<S: Source>(alloc: Global, command: ReadCommand, src: &mut S) -> Result<Reply, Stop>
    ensures took { IfOk result (λ reply. (words : List (List ℕ)) → Says words (Asked.Read command)
        → Took words (S.left src.old) (S.left src.new) reply) }
    ensures failed { result ≡ Err Stop.Failed → Rose (S.faults src.old) (S.faults src.new) }
    ensures counted { S.faults src.old ≤ S.faults src.new }
{
    match whole_reply(alloc, command, src) {
        Ok(reply) => Ok(reply),
        Err(fault) => unread_reply(alloc, fault),
    }
}

/// The reply to a source that can be read to its end.
fn whole_reply<S: Source>(
    alloc: Global,
    command: ReadCommand,
    src: &mut S,
) -> Result<Reply, TextFault>
    ensures took { IfOk result (λ reply. (words : List (List ℕ)) → Says words (Asked.Read command)
        → Took words (S.left src.old) (S.left src.new) reply) }
    ensures long { result ≡ Err TextFault.Long
        → (bytes : List ℕ) × (length bytes ≡ 16777217) × Consumes (S.left src.old) (S.left src.new) bytes }
    ensures failed { result ≡ Err TextFault.Failed → Rose (S.faults src.old) (S.faults src.new) }
    ensures counted { S.faults src.old ≤ S.faults src.new }
{
    let mut buffer = new_buffer(alloc)?;
    let mut text = Vec::new(alloc);
    if let Some(reply) = seek_reply(alloc, command, src, &mut buffer, &mut text)? {
        return Ok(reply);
    }
    read_rest(src, &mut buffer, &mut text)?;
    Ok(read_reply(alloc, command, &text)?)
}

/// The reply of a command to the bytes of the source.
fn read_reply(alloc: Global, command: ReadCommand, bytes: &[u8]) -> Result<Reply, AllocError>
    ensures { IfOk result (ReadReplies command bytes.now) }
{
    match command {
        ReadCommand::Find => find(alloc, bytes),
        ReadCommand::Each => each(alloc, bytes),
        ReadCommand::Image(table, order) => image(alloc, bytes, table, order),
        ReadCommand::ImagePair(order) => pair_image(alloc, bytes, order),
        ReadCommand::Check(form) => check(alloc, form, bytes),
        ReadCommand::CheckPair => check_pair(alloc, bytes),
        ReadCommand::Search(asked) => search(alloc, &asked, bytes),
        ReadCommand::Scan(form) => scan(alloc, form, bytes),
        ReadCommand::Equal(asked) => equal(alloc, &asked, bytes),
    }
}

/// The outcome for a source that wasn't read to its end.
fn unread_reply(alloc: Global, fault: TextFault) -> Result<Reply, Stop>
    ensures told { IfOk result (λ reply. (fault ≡ TextFault.Long) × (reply ≡ long_reply)) }
    ensures failed { result ≡ Err Stop.Failed ↔ (fault ≡ TextFault.Failed) }
{
    match fault {
        TextFault::Long => Ok(long_reply(alloc)?),
        TextFault::Failed => Err(Stop::Failed),
        TextFault::Memory => Err(Stop::Memory),
    }
}

/// Runs a command line: reads the source, writes the reply to the sink, and returns the exit status.
///
/// | status | what was written |
/// |---|---|
/// | 0 to 4 | the whole reply |
/// | 5: the source failed | nothing; by `feed`, the lines that the bytes read decide |
/// | 6: the sink failed | a part of the reply |
/// | 7: memory ran out | nothing |
///
/// Status 5 is returned only if the source's count of faults rose, 6 only if the sink's did. No other status is
/// returned.
pub fn run<S: Source, K: Sink>(alloc: Global, words: &Words, src: &mut S, out: &mut K) -> u8
    ensures answers { result ≤ 4
        → Answers words.now (record {
          left_before = S.left src.old;
          left_after = S.left src.new;
          written_before = K.written out.old;
          written_after = K.written out.new;
        }) result }
    ensures source { result ≡ 5
        → Rose (S.faults src.old) (S.faults src.new) × IsCut words.now (record {
          left_before = S.left src.old;
          left_after = S.left src.new;
          written_before = K.written out.old;
          written_after = K.written out.new;
        }) }
    ensures sink { result ≡ 6
        → Rose (K.faults out.old) (K.faults out.new) × Breaks words.now (record {
          left_before = S.left src.old;
          left_after = S.left src.new;
          written_before = K.written out.old;
          written_after = K.written out.new;
        }) }
    ensures memory { result ≡ 7
        → IsStarved words.now (record {
          left_before = S.left src.old;
          left_after = S.left src.new;
          written_before = K.written out.old;
          written_after = K.written out.new;
        }) }
    ensures few { result ≤ 7 }
    // Counts of faults never fall.
    ensures source_faults { S.faults src.old ≤ S.faults src.new }
    ensures sink_faults { K.faults out.old ≤ K.faults out.new }
{
    let answer = match answer(alloc, words, src) {
        Ok(answer) => answer,
        Err(Stop::Failed) => return SOURCE_FAILED,
        Err(Stop::Memory) => return NO_MEMORY,
    };
    match answer {
        Output::Reply(reply) => write_reply(&reply, out),
        Output::Feed(asked) => feed_status(alloc, asked, src, out),
    }
}

/// Writes a reply and returns the status.
fn write_reply<K: Sink>(reply: &Reply, out: &mut K) -> u8
    ensures whole { result ≤ 4
        → (result ≡ reply.now.status) × Appends (K.written out.old) (K.written out.new) reply.now.text }
    ensures broken { 4 < result
        → (result ≡ 6) × AppendsFront (K.written out.old) (K.written out.new) reply.now.text }
    ensures failed { 4 < result → Rose (K.faults out.old) (K.faults out.new) }
    ensures counted { K.faults out.old ≤ K.faults out.new }
{
    if write_text(out, reply.text()) {
        return reply.status();
    }
    SINK_FAILED
}

/// Runs `feed` and returns the status.
fn feed_status<S: Source, K: Sink>(alloc: Global, asked: Feed, src: &mut S, out: &mut K) -> u8
    ensures answers { result ≤ 4
        → FeedAnswers asked.form (mode_of asked.mode) asked.image_len (record {
          left_before = S.left src.old;
          left_after = S.left src.new;
          written_before = K.written out.old;
          written_after = K.written out.new;
        }) result }
    ensures source { result ≡ 5
        → Rose (S.faults src.old) (S.faults src.new)
        × FeedCut asked.form (mode_of asked.mode) asked.image_len (record {
          left_before = S.left src.old;
          left_after = S.left src.new;
          written_before = K.written out.old;
          written_after = K.written out.new;
        }) }
    ensures sink { result ≡ 6
        → Rose (K.faults out.old) (K.faults out.new)
        × FeedBreaks asked.form (mode_of asked.mode) asked.image_len (record {
          left_before = S.left src.old;
          left_after = S.left src.new;
          written_before = K.written out.old;
          written_after = K.written out.new;
        }) }
    ensures memory { result ≡ 7
        → FeedStarved asked.image_len (record {
          left_before = S.left src.old;
          left_after = S.left src.new;
          written_before = K.written out.old;
          written_after = K.written out.new;
        }) }
    ensures few { result ≤ 7 }
    ensures source_faults { S.faults src.old ≤ S.faults src.new }
    ensures sink_faults { K.faults out.old ≤ K.faults out.new }
{
    let len = asked.image_len as usize;
    match feed(alloc, asked.form, asked.mode, len, src, out) {
        Ok(status) => status,
        Err(Fault::Source) => SOURCE_FAILED,
        Err(Fault::Sink) => SINK_FAILED,
        Err(Fault::Memory) => NO_MEMORY,
    }
}
